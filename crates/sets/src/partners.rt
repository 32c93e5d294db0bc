// The partners of a block's rows: where an equation takes a set from besides the row's own point. One pass finds them all: `came` has for an "else" its
// "if", for an "end if" its "else" and for a "repeat" its "end repeat", `goes` the other way. A loop's far end, in `came` the "end repeat", has the point whose set
// it takes.
ghost use Rattle.std.specs.Prelude.{◌≡◌, suc, ◌+◌, ◌<◌, get_or, set, length};
ghost use Rattle.sheet.specs.Inner.Words.{word_values};
ghost use Rattle.sets.specs.Inner.RowEquations.{line_in};
ghost use Rattle.sheet.specs.Inner.Kinds.{opens_test};
ghost use Rattle.sets.specs.Inner.PartnerPass.{found, paired, way_out, ended, found_by, Findable, Listed, PartnersFound};

use super::{LaidSheet, rows};
use sheet::kinds::Part;
use sheet::{RowNumber, kinds};

// Both lists as a walk takes them: what each row's equation takes a set from besides its own point, and for a loop's far end its near end.
#[derive(Clone, Copy)]
pub struct Partners<'a> {
    pub taken: &'a [u16],
    pub back: &'a [u16],
}

// The partner that is noted for a row, which must have a place in the list.
pub fn partner_there(partners: &[u16], row: RowNumber) -> RowNumber
    requires { row.0 < length partners.now }
    ensures { (result.0 ≡ get_or partners.now row.0 0) × (result.0 < word_values) }
{
    RowNumber(partners[row.0] as usize)
}

fn put(list: &mut [u16], row: RowNumber, partner: RowNumber)
    requires { (row.0 < length list.old) × (partner.0 < word_values) }
    ensures { list.new ≡ set list.old row.0 partner.0 }
{
    list[row.0] = partner.0 as u16;
}

// Two rows become partners: `to` came from `from`. The answer is the row that was innermost outside `top`, the innermost open one until now.
// `came` and `goes` go side by side, here and below: a struct of both `&mut` would have to say in each contract that it still holds the same two references, beside
// what the lists become.
fn pair(
    to: RowNumber,
    from: RowNumber,
    top: RowNumber,
    came: &mut [u16],
    goes: &mut [u16],
) -> RowNumber
    requires { Listed came.old goes.old to.0 × Listed came.old goes.old from.0 × (top.0 < length goes.old) }
    ensures { (found result.0 came.new goes.new
        ≡ paired to.0 from.0 (found top.0 came.old goes.old)) × (result.0 < word_values) }
{
    let outer = partner_there(goes, top);
    put(came, to, from);
    put(goes, from, to);
    outer
}

// A loop's rows, once they are partners, as far ends: beyond a loop with a test, which may do no turn, stands the set of the body's near end.
fn put_ways_out(tests: bool, start: RowNumber, end: RowNumber, came: &mut [u16], goes: &mut [u16])
    requires { Listed came.old goes.old start.0 × Listed came.old goes.old end.0 × (start.0 + 1 < word_values) }
    ensures { (came.new ≡ set came.old end.0 (way_out tests (suc start.0) end.0))
        × (goes.new ≡ set goes.old start.0 (way_out tests end.0 (suc start.0))) }
{
    let inside = RowNumber(start.0 + 1);
    if tests {
        put(came, end, inside);
        put(goes, start, end);
    } else {
        put(came, end, end);
        put(goes, start, inside);
    }
}

// The last row of a loop that `top` opened.
fn end_loop(
    tests: bool,
    row: RowNumber,
    top: RowNumber,
    came: &mut [u16],
    goes: &mut [u16],
) -> RowNumber
    requires { Listed came.old goes.old row.0 × Listed came.old goes.old top.0 × (top.0 + 1 < word_values) }
    ensures { found result.0 came.new goes.new
        ≡ ended tests top.0 row.0 (paired top.0 row.0 (found top.0 came.old goes.old)) }
{
    let outer = pair(top, row, top, came, goes);
    put_ways_out(tests, top, row, came, goes);
    outer
}

// One row: `top` is the innermost open block's last row so far, and the answer is the same after this row.
#[tactic(auto, unfolding(crate::specs::Inner::PartnerPass::found_by))]
fn partner_step(
    laid: LaidSheet,
    part: Part,
    row: RowNumber,
    top: RowNumber,
    came: &mut [u16],
    goes: &mut [u16],
) -> RowNumber
    requires { Listed came.old goes.old row.0 × Listed came.old goes.old top.0 × (top.0 + 1 < word_values) × (top.0 < laid.rows) }
    ensures { found result.0 came.new goes.new
        ≡ found_by part (opens_test (line_in laid.entry.words.now laid.entry.first top.0)) row.0 (found top.0 came.old goes.old) }
{
    match part {
        Part::Assignment => top,
        Part::If | Part::Repeat => {
            put(goes, row, top);
            row
        }
        Part::Else => {
            let outer = pair(row, top, top, came, goes);
            put(goes, row, outer);
            row
        }
        Part::EndIf => pair(row, top, top, came, goes),
        Part::EndRepeat => end_loop(rows::opens_test(laid, top), row, top, came, goes),
    }
}

pub fn find_partners(laid: LaidSheet, came: &mut [u16], goes: &mut [u16])
    requires { Findable (line_in laid.words.now laid.first) laid.rows came.old goes.old }
    ensures { PartnersFound (line_in laid.entry.words.now laid.entry.first) laid.entry.rows
        came.old goes.old came.new goes.new }
{
    let forms = kinds::forms();
    let mut top = RowNumber(0);
    for number in 0..laid.rows {
        let row = RowNumber(number);
        let kind = rows::kind_of(laid, row);
        let form = forms[kind];
        top = partner_step(laid, form.3, row, top, came, goes);
    }
}
