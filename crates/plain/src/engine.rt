// The engine's run of a sheet's rows.
ghost use Rattle.std.specs.Prelude.{◌≡◌, ◌<◌, length};
ghost use Rattle.sheet.specs.Bounds.{limit};
ghost use Rattle.plain.specs.Inner.Engine.{Ready, RunsTo};

use super::blocks::At;
use super::{Rated, blocks, rates};
use number::Number;
use sheet::{MAX_VARIABLES, RowNumber, Shape, kinds};

// Where a run stops: at a sheet's row, after so many of that row's table rows.
#[derive(Clone, Copy)]
pub struct StoppedAt {
    pub row: RowNumber,
    pub after: u8,
}

// As many steps as suffice for any sheet: for each that W counts one more, as an "if" block takes.
const STEPS: usize = 2 * sheet::MAX_LONGEST;

// The cell that a word names; any, where it names none.
fn cell_of(word: u16) -> usize
    ensures { (result < limit.variables) × (word < limit.variables → result ≡ word) }
{
    sheet::wide(word).min(MAX_VARIABLES - 1)
}

// One row at a time, from the first: an assignment sets its cell, a block's row leads on.
pub fn run_rows(
    words: &[u16],
    shape: Shape,
    marks: &[u8],
    goes: &[u16],
    start: [Rated; MAX_VARIABLES],
) -> Result<[Rated; MAX_VARIABLES], StoppedAt>
    requires ready { Ready words.now shape marks.now goes.now }
    requires start_fits { length start ≡ limit.variables }
    ensures { RunsTo words.now shape marks.now start result }
{
    let forms = kinds::forms();
    let mut cells = start;
    let mut to_come = [0u16; sheet::MAX_DEPTH];
    let mut number: usize = 0;
    let mut depth: usize = 0;
    let mut left: usize = STEPS;
    // No `for`: a block's row leads on to another than the next.
    while number < shape.rows {
        let row = RowNumber(number);
        let said = sheet::row_of(words, shape.first_row, row);
        let kind = sheet::wide(said.kind);
        let part = forms[kind].3;
        left -= 1;
        if kinds::assigns(part) {
            let a = cells[cell_of(said.a)];
            let b = cells[cell_of(said.b)];
            match rates::assigned(words, shape.first_constant, said, marks[number], a, b) {
                Ok(x) => cells[cell_of(said.d)] = x,
                Err(after) => return Err(StoppedAt { row, after }),
            }
            number += 1;
        } else {
            let asked = sheet::row_of(words, shape.first_row, blocks::asked_row(part, goes, row));
            let x = cells[cell_of(asked.a)];
            let y = cells[cell_of(asked.b)];
            let holds = x.value.less(y.value);
            let next = blocks::cross(part, asked, holds, goes, &mut to_come, At { row, depth });
            number = next.row.0;
            depth = next.depth;
        }
    }
    Ok(cells)
}
