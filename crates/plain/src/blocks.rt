// Where a block's row leads in the sheet, by the rows' partners and the turns still to come.
ghost use Rattle.std.specs.Prelude.{◌≡◌, cond, ◌+◌, ◌≤◌, ◌<◌, length, get_or};
ghost use Rattle.sheet.specs.Answers.{row_said};
ghost use Rattle.sheet.specs.Inner.Kinds.{turns_in};
ghost use Rattle.plain.specs.Inner.Crossing.{asked_row, turns_on, opened, ended_turn, crossing, Crossable};

use sheet::kinds::Part;
use sheet::{RowNumber, RowWords, kinds};

// The sheet's row at hand, and how many loops are open around it.
#[derive(Clone, Copy)]
pub struct At {
    pub row: RowNumber,
    pub depth: usize,
}

// The row after a block row's partner.
fn beyond(goes: &[u16], row: RowNumber) -> RowNumber
    requires { row.0 < length goes.now }
    ensures { result.0 ≡ get_or goes.now row.0 0 + 1 }
{
    RowNumber(sheet::wide(goes[row.0]) + 1)
}

// After an "if": the first branch, or the second.
fn branch(goes: &[u16], holds: bool, row: RowNumber) -> RowNumber
    requires { row.0 < length goes.now }
    ensures { result.0 ≡ cond holds (row.0 + 1) (get_or goes.now row.0 0 + 1) }
{
    if holds {
        RowNumber(row.0 + 1)
    } else {
        beyond(goes, row)
    }
}

// The row whose words say what is asked where a block's row stands: at an "end repeat" the one that opened the loop.
pub fn asked_row(part: Part, goes: &[u16], row: RowNumber) -> RowNumber
    requires { row.0 < length goes.now }
    ensures { result.0 ≡ asked_row part goes.now row.0 }
{
    match part {
        Part::Assignment | Part::If | Part::Else | Part::EndIf | Part::Repeat => row,
        Part::EndRepeat => RowNumber(sheet::wide(goes[row.0])),
    }
}

// Whether a loop that has turns to come does one more.
fn turns_on(asked: RowWords, holds: bool) -> bool
    ensures { result ≡ turns_on (row_said asked) holds }
{
    asked.kind != kinds::WHILE || holds
}

// A loop that is reached from outside: its first turn, or past it.
fn opened(more: bool, turns: u16, goes: &[u16], to_come: &mut [u16], at: At) -> At
    requires { (at.row.0 < length goes.now) × (1 ≤ turns) × (at.depth < length to_come.old) }
    ensures { record { at = result; to_come = to_come.new } ≡ opened more turns goes.now to_come.old at }
{
    let At { row, depth } = at;
    if more {
        to_come[depth] = turns - 1;
        return At {
            row: RowNumber(row.0 + 1),
            depth: depth + 1,
        };
    }
    At {
        row: beyond(goes, row),
        depth,
    }
}

// An "end repeat": the body once more, or past the loop.
fn turn_ended(more: bool, goes: &[u16], to_come: &mut [u16], at: At) -> At
    requires { (at.row.0 < length goes.now) × (1 ≤ at.depth) × (at.depth ≤ length to_come.old) }
    ensures { record { at = result; to_come = to_come.new } ≡ ended_turn more goes.now to_come.old at }
{
    let At { row, depth } = at;
    let top = depth - 1;
    let turns = to_come[top];
    if (turns == 0) | !more {
        return At {
            row: RowNumber(row.0 + 1),
            depth: top,
        };
    }
    to_come[top] = turns - 1;
    At {
        row: beyond(goes, row),
        depth,
    }
}

// By what the row is to the blocks, the row that is asked and whether its test holds.
pub fn cross(
    part: Part,
    asked: RowWords,
    holds: bool,
    goes: &[u16],
    to_come: &mut [u16],
    at: At,
) -> At
    requires { (at.row.0 < length goes.now) × Crossable part (turns_in (row_said asked)) at.depth (length to_come.old) }
    ensures { record { at = result; to_come = to_come.new } ≡ crossing part (row_said asked) holds goes.now to_come.old at }
{
    let At { row, depth } = at;
    let more = turns_on(asked, holds);
    match part {
        Part::Assignment | Part::EndIf => At {
            row: RowNumber(row.0 + 1),
            depth,
        },
        Part::If => At {
            row: branch(goes, holds, row),
            depth,
        },
        Part::Else => At {
            row: beyond(goes, row),
            depth,
        },
        Part::Repeat => opened(more, kinds::turns_of(asked), goes, to_come, at),
        Part::EndRepeat => turn_ended(more, goes, to_come, at),
    }
}
