// How many rows a sheet's row has in the table, without writing them.
ghost use Rattle.std.specs.Prelude.{◌≡◌};
ghost use Rattle.sheet.specs.Inner.RowLines.{line_of_row};
ghost use Rattle.sheet.specs.Answers.{row_said};
ghost use Rattle.table.specs.RowBounds.{most_parts, most_backward, most_rows_each};
ghost use Rattle.table.specs.Inner.MarkedRows.{Assigns, SaysPart, part_rows, assignment_back, both_parts, Counted};

use super::marks;
use sheet::kinds::Part;
use sheet::{RowWords, kinds};

// How many rows an assignment's parts are: for each operand that names a varied variable one, and in a product two; in a quotient one for u := t / b, one
// for the dividend and three for the divisor.
fn parts_count(row: RowWords, mark: u8) -> usize
    requires { Assigns row.kind }
    ensures { Counted most_parts result (λ v. part_rows v (row_said row) mark) }
{
    // By a match with an arm for each kind, as tried, the sizes of mixed rows took four tenths longer; by one at the end alone, a seventh.
    let has_a = row.kind != kinds::CONSTANT;
    let has_b = (row.kind == kinds::SUM)
        | (row.kind == kinds::DIFFERENCE)
        | (row.kind == kinds::PRODUCT)
        | (row.kind == kinds::QUOTIENT);
    let of_a = usize::from(has_a & marks::bit(mark, sets::VARIED_A));
    let of_b = usize::from(has_b & marks::bit(mark, sets::VARIED_B));
    if row.kind == kinds::PRODUCT {
        2 * (of_a + of_b)
    } else if row.kind == kinds::QUOTIENT {
        1 + of_a + 3 * of_b
    } else {
        of_a + of_b
    }
}

// How many rows an assignment has in the backward part.
fn assignment_count(row: RowWords, mark: u8) -> usize
    requires { Assigns row.kind }
    ensures { Counted most_backward result (λ v. assignment_back v (row_said row) mark) }
{
    let saved = marks::bit(mark, sets::SAVED);
    let active = marks::bit(mark, sets::ACTIVE);
    let taken = usize::from(saved);
    let parts = parts_count(row, mark);
    if active { taken + 2 + parts } else { taken + 1 }
}

// How many rows a sheet's row has in both parts.
pub fn row_count(row: RowWords, part: Part, mark: u8) -> usize
    requires { SaysPart (row_said row) part }
    ensures { Counted most_rows_each result (λ v. both_parts v mark (line_of_row (row_said row))) }
{
    match part {
        Part::Assignment => {
            let saved = marks::bit(mark, sets::SAVED);
            usize::from(saved) + 1 + assignment_count(row, mark)
        }
        Part::If | Part::Repeat | Part::EndRepeat => 2,
        Part::Else | Part::EndIf => 3,
    }
}
