// Refusal 13, for the runs in audit: the first row of kind 18. No other call gives it.
ghost use Rattle.std.specs.Prelude.{◌≡◌, false, List, ℕ, ◌+◌, ◌*◌, ◌≤◌, length};
ghost use Rattle.sheet.specs.Bounds.{limit};
ghost use Rattle.sheet.specs.Sheets.{Sheet, rows_at};
ghost use Rattle.sheet.specs.Reading.{undivided};
ghost use Rattle.table.specs.Sizes.{Needs};
ghost use Rattle.table.specs.Inner.Plans.{PlanSaysFor, PlanSaysIn, RowsWithin, quotients_said};

use super::Plan;
use sheet::{No, ROW_WORDS, kinds};

// Among so many rows from a place on.
fn first_quotient(words: &[u16], first: usize, rows: usize) -> Option<usize>
    requires { first + rows * limit.row_words ≤ length words.now }
    ensures { quotients_said result ≡ undivided (rows_at words.now first rows) first }
{
    for p in 0..rows {
        let place = first + p * ROW_WORDS;
        if words[place] == kinds::QUOTIENT {
            return Some(place);
        }
    }
    None
}

// A plan, whoever made it, for an arithmetic without quotients: a sheet that holds one is refused.
pub fn undivided(words: &[u16], planned: Result<Plan, No>) -> Result<Plan, No>
    requires { RowsWithin words.now planned }
    ensures { (needs : Sheet → Needs) (marks came goes : List ℕ) → PlanSaysFor needs words.now marks came goes planned
        → PlanSaysIn false needs words.now marks came goes result }
{
    let plan = planned?;
    let shape = plan.shape;
    match first_quotient(words, shape.first_row, shape.rows) {
        None => Ok(plan),
        Some(place) => Err(No::HoldsQuotient(place)),
    }
}
