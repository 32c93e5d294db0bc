// How many rows a sheet's row has in the tangent table, without writing them.
ghost use Rattle.std.specs.Prelude.{◌≡◌, ◌≤◌};
ghost use Rattle.sheet.specs.Inner.RowLines.{line_of_row};
ghost use Rattle.sheet.specs.Answers.{row_said};
ghost use Rattle.table.specs.Inner.MarkedRows.{SaysPart, known_by};
ghost use Rattle.tangent.specs.Inner.TangentPlans.{line_count, most_rates, most_line_count, quotient_count};

use sheet::kinds::Part;
use sheet::{RowWords, kinds};
use table::marks;

// A quotient's rate rows, by the operands that are varied.
fn quotient_count(first: bool, second: bool) -> usize
    ensures { (result ≡ quotient_count first second) × (result ≤ most_rates) }
{
    match (first, second) {
        (true, true) => 5,
        (true, false) => 1,
        (false, _) => 4,
    }
}

// A block's row stands alone, and an assignment has one rate row, or three where both terms of a product are its rate; a quotient has its own.
pub fn rows_over(row: RowWords, part: Part, mark: u8) -> usize
    requires { SaysPart (row_said row) part }
    ensures { (result ≡ line_count (known_by mark) (line_of_row (row_said row))) × (result ≤ most_line_count) }
{
    let first = marks::bit(mark, sets::VARIED_A);
    let second = marks::bit(mark, sets::VARIED_B);
    let active = marks::bit(mark, sets::ACTIVE);
    if !kinds::assigns(part) {
        return 1;
    }
    if !active {
        return 1 + 1;
    }
    let rates = match row.kind {
        kinds::QUOTIENT => quotient_count(first, second),
        kinds::PRODUCT if first & second => 3,
        _ => 1,
    };
    rates + 1
}
