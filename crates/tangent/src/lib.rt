// Tangents (02 §1): any words and a buffer in; out comes the tangent table at the buffer's start, or the first refusal. A run takes a sheet, writes
// its tangent table and runs it, in both arithmetics.
#![tactic(auto)]

ghost use Rattle.std.specs.Prelude.{◌≡◌, ◌≤◌, length};
ghost use Rattle.sheet.specs.Judging.{given};
ghost use Rattle.sheet.specs.Sheets.{Sheet};
ghost use Rattle.sheet.specs.Reading.{read};
ghost use Rattle.sheet.specs.Answers.{shape_read};
ghost use Rattle.table.specs.Sizes.{table_room, written_of};
ghost use Rattle.table.specs.Inner.Plans.{SheetNoted, PlanMadeFor, PlanSaysFor};
ghost use Rattle.writer.specs.Inner.JumpsNoted.{TableNoted};
ghost use Rattle.tangent.specs.Calls.{tangent_of, tangent_needs_of, write_tangent};
ghost use Rattle.tangent.specs.Inner.TangentPlans.{TangentPlanned};

use sheet::RowNumber;
use table::{MAX_TABLE_ROWS, Plan, Reply};

mod calls;
pub mod count;
mod rows;
mod sweep;

pub use calls::{tangent_audit, tangent_double};
pub use sweep::rows_before;

// The plan of an accepted sheet, from its rows' marks. The partners are there for what the plan says of them.
fn plan_of(
    words: &[u16],
    shape: sheet::Shape,
    marks: &[u8; sheet::MAX_ROWS],
    came: &[u16; sheet::MAX_ROWS],
    goes: &[u16; sheet::MAX_ROWS],
) -> Plan
    requires accepted { shape_read words.now ≡ given shape }
    requires noted { ((sheet : Sheet) → read words.now ≡ given sheet → SheetNoted sheet marks.now came.now goes.now) }
    ensures { PlanMadeFor tangent_needs_of words.now result marks.now came.now goes.now }
{
    let rows = sweep::rows_before(words, shape, marks, RowNumber(shape.rows));
    Plan {
        shape,
        rows,
        values: 0,
        turns: 0,
    }
}

// Any words: the first refusal of 1 to 7, or the plan of the sheet's tangent, with every row's marks.
pub fn plan_tangent(
    words: &[u16],
    marks: &mut [u8; sheet::MAX_ROWS],
    came: &mut [u16; sheet::MAX_ROWS],
    goes: &mut [u16; sheet::MAX_ROWS],
) -> Result<Plan, sheet::No>
    ensures { PlanSaysFor tangent_needs_of words.now marks.new came.new goes.new result }
{
    let (shape, _) = sets::mark(words, marks, came, goes)?;
    Ok(plan_of(words, shape, marks, came, goes))
}

// The tangent table of a planned sheet into a buffer that has room for it, and where each of its "if"s, "else"s and "repeat"s goes on to.
pub fn write_planned(
    words: &[u16],
    plan: Plan,
    marks: &[u8; sheet::MAX_ROWS],
    table: &mut [u16],
    beyond: &mut [u16; MAX_TABLE_ROWS],
)
    requires planned { TangentPlanned words.now plan marks.now }
    requires table_fits { table_room plan.rows ≤ length table.old }
    ensures { (sheet : Sheet) → read words.now ≡ given sheet
        → TableNoted (tangent_of sheet) table.old table.new beyond.old beyond.new }
{
    sweep::write_table(words, plan, marks, table, beyond);
}

// Any words and a buffer: the first refusal of 1 to 8, or the tangent table of the sheet that they are, at the buffer's start.
pub fn write_tangent(words: &[u16], table: &mut [u16]) -> Reply
    ensures { written_of result table.new ≡ write_tangent words.now table.old }
{
    let mut marks = [0u8; sheet::MAX_ROWS];
    let mut came = [0u16; sheet::MAX_ROWS];
    let mut goes = [0u16; sheet::MAX_ROWS];
    let plan = match plan_tangent(words, &mut marks, &mut came, &mut goes) {
        Ok(plan) => plan,
        Err(why) => return Reply::from(why),
    };
    if !writer::has_room(plan.rows, table.len()) {
        return Reply::refused(table::SMALL_TABLE, 0);
    }
    let mut beyond = [0u16; MAX_TABLE_ROWS];
    write_planned(words, plan, &marks, table, &mut beyond);
    Reply::done()
}
