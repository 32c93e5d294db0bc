// Where each "if", each "else" and each "repeat" of the table goes on to, noted while the rows are written.
ghost use Rattle.std.specs.Prelude.{◌≡◌, ◌-◌, get_or, set};
ghost use Rattle.writer.specs.Inner.JumpsNoted.{noting, noted_by, forward_branching, backward_branching, rows_before, RowEnds};

use sheet::kinds::Part;
use table::MAX_TABLE_ROWS;

// What a row of the table is to the blocks around it.
#[derive(Clone, Copy)]
pub enum Branching {
    Opens,
    Splits,
    Closes,
    Passes,
}

// What the last of a sheet row's rows is in the forward part.
pub fn forward(part: Part) -> Branching
    ensures { result ≡ forward_branching part }
{
    match part {
        Part::Assignment => Branching::Passes,
        Part::If | Part::Repeat => Branching::Opens,
        Part::Else => Branching::Splits,
        Part::EndIf | Part::EndRepeat => Branching::Closes,
    }
}

// And in the backward part, where a block's end is its start.
pub fn backward(part: Part) -> Branching
    ensures { result ≡ backward_branching part }
{
    match part {
        Part::Assignment => Branching::Passes,
        Part::If => Branching::Splits,
        Part::Else | Part::Repeat => Branching::Closes,
        Part::EndIf | Part::EndRepeat => Branching::Opens,
    }
}

fn put(beyond: &mut [u16], row: u16, to: u16)
    ensures { beyond.new ≡ set beyond.old row to }
{
    let place = usize::from(row);
    // `get_mut`, as tried, leaves a proof nothing of the slice's elements.
    if place < beyond.len() {
        beyond[place] = to;
    }
}

// The innermost open branch or loop ends, and its row goes on to another. Answers the row of the one around it.
fn end_branch(top: u16, to: u16, beyond: &mut [u16]) -> u16
    ensures { (result ≡ get_or beyond.old top 0) × (beyond.new ≡ set beyond.old top to) }
{
    let outer = sheet::word_at(beyond, usize::from(top));
    put(beyond, top, to);
    outer
}

fn rows_before(place: usize) -> u16
    requires { RowEnds place }
    ensures { result ≡ rows_before place }
{
    ((place - 1) / sheet::ROW_WORDS) as u16
}

// The row that ends at a place. `top` is the row of the innermost open branch or loop, and so is the answer, after this row.
pub fn note(what: Branching, place: usize, top: u16, beyond: &mut [u16; MAX_TABLE_ROWS]) -> u16
    requires { RowEnds place }
    ensures { noting result beyond.new ≡ noted_by what (rows_before place - 1) (noting top beyond.old) }
{
    let behind = rows_before(place);
    let row = behind - 1;
    match what {
        Branching::Opens => {
            put(beyond, row, top);
            row
        }
        Branching::Splits => {
            let outer = end_branch(top, behind, beyond);
            put(beyond, row, outer);
            row
        }
        Branching::Closes => end_branch(top, behind, beyond),
        Branching::Passes => top,
    }
}
