// What the row at a place of a table says, which no arithmetic has a part in.
ghost use Rattle.std.specs.Prelude.{◌≡◌, suc, ◌+◌, ◌*◌, ◌≤◌, length};
ghost use Rattle.sheet.specs.Bounds.{limit};
ghost use Rattle.sheet.specs.Sheets.{row_at};
ghost use Rattle.sheet.specs.Answers.{row_said};
ghost use Rattle.machine.specs.Inner.RowsHanded.{place_of_row};
ghost use Rattle.machine.specs.Inner.RowSteps.{Meets, MeetsKind, Reaches};

use super::{Ended, Met, Place};
use sheet::{RowNumber, RowWords, kinds};

// The words of one of a table's rows: they start after the row count.
pub fn row_of(table: &[u16], row: RowNumber) -> RowWords
    requires { place_of_row (suc row.0) ≤ length table.now }
    ensures { row_said result ≡ row_at table.now (1 + row.0 * limit.row_words) }
{
    sheet::row_of(table, 1, row)
}

// The row of a block at a place, or the end.
pub fn block_at(table: &[u16], rows: usize, place: Place) -> Met
    requires { place_of_row rows ≤ length table.now }
    ensures { Meets table.now rows place result }
{
    let at = place.at;
    let number = at.0;
    let left = place.left;
    if left == 0 {
        return Met::Out(Ended::Unfinished);
    }
    if rows <= number {
        return Met::Out(Ended::Finished);
    }
    let row = row_of(table, at);
    let after = RowNumber(number + 1);
    let next = place.following(after, left - 1);
    if row.kind == kinds::IF {
        return Met::Ask(row, next);
    }
    if row.kind == kinds::WHILE {
        return Met::Ask(row, next);
    }
    Met::Other(row, next)
}

// As far as straight rows may be done from a place with one test for each: to the last row, or as many as steps are left.
pub fn reach(rows: usize, place: Place) -> usize
    ensures { Reaches result rows place }
{
    let at = place.at;
    let number = at.0;
    let left = place.left;
    if rows <= number {
        return rows;
    }
    if rows - number <= left {
        return rows;
    }
    number + left
}

// The row at a place if it is of this kind and stands before `until`, as far as steps are left.
pub fn kind_at(table: &[u16], until: usize, place: Place, kind: u16) -> Option<(RowWords, Place)>
    requires rows_in { place_of_row until ≤ length table.now }
    requires until_in { until ≤ place.at.0 + place.left }
    ensures { MeetsKind table.now until place kind result }
{
    let at = place.at;
    let number = at.0;
    if until <= number {
        return None;
    }
    let row = row_of(table, at);
    if row.kind != kind {
        return None;
    }
    let after = RowNumber(number + 1);
    let left = place.left;
    Some((row, place.following(after, left - 1)))
}
