// The table writer: any words and a buffer in; out comes the adjoint table at the buffer's start, or the first refusal. A run has its table
// written by the plan that it has made.
#![tactic(auto)]

ghost use Rattle.std.specs.Prelude.{◌≡◌, ◌≤◌, length, leb};
ghost use Rattle.sheet.specs.Judging.{given};
ghost use Rattle.sheet.specs.Sheets.{Sheet};
ghost use Rattle.sheet.specs.Reading.{read};
ghost use Rattle.table.specs.Sizes.{table_room, written_of};
ghost use Rattle.table.specs.Computed.{table_of};
ghost use Rattle.table.specs.Calls.{write};
ghost use Rattle.table.specs.Inner.Plans.{PlanSays};
ghost use Rattle.writer.specs.Inner.JumpsNoted.{TableNoted};

use sweep::Handed;
use table::{MAX_TABLE_ROWS, Plan, Reply};

pub mod jumps;
mod partners;
pub mod rows;
mod sweep;

// The table of a planned sheet into a buffer that has room for it, and where each of its "if"s, "else"s and "repeat"s goes on to.
pub fn write_planned(
    words: &[u16],
    plan: Plan,
    marks: &[u8; sheet::MAX_ROWS],
    came: &[u16; sheet::MAX_ROWS],
    goes: &[u16; sheet::MAX_ROWS],
    table: &mut [u16],
    beyond: &mut [u16; MAX_TABLE_ROWS],
)
    requires planned { PlanSays words.now marks.now came.now goes.now (Ok plan) }
    requires table_fits { table_room plan.rows ≤ length table.old }
    ensures { (sheet : Sheet) → read words.now ≡ given sheet
        → TableNoted (table_of sheet) table.old table.new beyond.old beyond.new }
{
    let given = Handed {
        words,
        shape: plan.shape,
        marks,
        came,
        goes,
    };
    sweep::write_table(given, plan.rows, table, beyond);
}

// Whether so many words hold the table's row count and its rows.
pub fn has_room(rows: usize, room: usize) -> bool
    ensures { result ≡ leb (table_room rows) room }
{
    0 < room && rows <= (room - 1) / sheet::ROW_WORDS
}

// Any words and a buffer: the first refusal of 1 to 8, or the table of the sheet that they are, at the buffer's start.
pub fn write(words: &[u16], table: &mut [u16]) -> Reply
    ensures { written_of result table.new ≡ write words.now table.old }
{
    let mut marks = [0u8; sheet::MAX_ROWS];
    let mut came = [0u16; sheet::MAX_ROWS];
    let mut goes = [0u16; sheet::MAX_ROWS];
    let plan = match table::plan_sheet(words, &mut marks, &mut came, &mut goes) {
        Ok(plan) => plan,
        Err(why) => return Reply::from(why),
    };
    if !has_room(plan.rows, table.len()) {
        return Reply::refused(table::SMALL_TABLE, 0);
    }
    let mut beyond = [0u16; MAX_TABLE_ROWS];
    write_planned(words, plan, &marks, &came, &goes, table, &mut beyond);
    Reply::done()
}
