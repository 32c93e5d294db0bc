// What rows need of the two stacks, and what is kept of the blocks that are open around them.
ghost use Rattle.std.specs.Prelude.{◌≡◌, eqb};
ghost use Rattle.table.specs.Inner.MarkedRows.{saved_by};
ghost use Rattle.sheet.specs.Rows.{while_kind};
ghost use Rattle.sheet.specs.Answers.{row_said};
ghost use Rattle.sheet.specs.Inner.Kinds.{turns_in};
ghost use Rattle.table.specs.Inner.Needs.{Few, with_saved, with_count, opened, split, after_if, after_repeat};

use super::marks;
use sheet::{RowWords, kinds};

// Of the value stack and of the turn stack: S and T of the rows.
#[derive(Clone, Copy)]
pub struct Need {
    pub values: usize,
    pub turns: usize,
}

pub const NOTHING: Need = Need {
    values: 0,
    turns: 0,
};

impl Need {
    // After an assignment.
    pub fn with_saved(self, mark: u8) -> Self
        requires { Few (with_saved (saved_by mark) self) }
        ensures { result ≡ with_saved (saved_by mark) self }
    {
        let saved = marks::bit(mark, sets::SAVED);
        Need {
            values: self.values + usize::from(saved),
            ..self
        }
    }

    // Before a loop: one with a test puts its count away.
    fn with_count(self, kind: u16) -> Self
        requires { Few (with_count (eqb kind while_kind) self) }
        ensures { result ≡ with_count (eqb kind while_kind) self }
    {
        Need {
            turns: self.turns + usize::from(kind == kinds::WHILE),
            ..self
        }
    }
}

// A block that is open: what the rows before it need, what its first branch needs once that is known, and how often a repeat's body is run.
#[derive(Clone, Copy)]
pub struct Level {
    pub before: Need,
    pub first: Need,
    pub times: usize,
}

pub const NO_LEVEL: Level = Level {
    before: NOTHING,
    first: NOTHING,
    times: 0,
};

impl Level {
    // The block begins with nothing needed in it.
    pub fn opened(before: Need, times: usize) -> Self
        ensures { result ≡ opened times before }
    {
        Level {
            before,
            first: NOTHING,
            times,
        }
    }

    // A loop's row.
    pub fn loop_opened(need: Need, row: RowWords) -> Self
        requires { Few (with_count (eqb row.kind while_kind) need) }
        ensures { result ≡ opened (turns_in (row_said row)) (with_count (eqb row.kind while_kind) need) }
    {
        let before = need.with_count(row.kind);
        Level::opened(before, sheet::wide(kinds::turns_of(row)))
    }

    // "else": the second branch begins.
    pub fn split(self, first: Need) -> Self
        ensures { result ≡ split self first }
    {
        Level { first, ..self }
    }

    // "end if": one of the branches is run, and the turn is saved.
    pub fn after_if(self, second: Need) -> Need
        requires { Few (after_if self second) }
        ensures { result ≡ after_if self second }
    {
        let Level { before, first, .. } = self;
        Need {
            values: before.values + first.values.max(second.values),
            turns: before.turns + 1 + first.turns.max(second.turns),
        }
    }

    // "end repeat": the body is run so many times.
    pub fn after_repeat(self, body: Need) -> Need
        requires { Few (after_repeat self body) }
        ensures { result ≡ after_repeat self body }
    {
        let Level { before, times, .. } = self;
        Need {
            values: before.values + times * body.values,
            turns: before.turns + times * body.turns,
        }
    }
}
