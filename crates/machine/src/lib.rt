// The row machine's code in which no arithmetic has a part: places, what stands at a place of a table, the rows of blocks, the turn stack; and what
// rows answer in either arithmetic. Each row's code is held against its written meaning (specs/Actions.antt), a run of rows, in `runner`,
// against the machine's steps (specs/Machine.antt). Where a stack ends, a ninth repeat would open or no jump is noted, the answer is Stuck.
#![tactic(auto)]

ghost use Rattle.std.specs.Prelude.{◌≡◌};
ghost use Rattle.machine.specs.declared.Ended.TheVariants.{Stuck};

pub mod blocks;
pub mod places;
pub mod rows;
pub mod turns;

use sheet::{RowNumber, RowWords};

// Why a row can't be done: a stack ends, a ninth repeat would open, or no jump is noted.
#[derive(Clone, Copy)]
pub struct Stuck;

// The branch that a comparison picks.
#[derive(Clone, Copy)]
pub enum Branch {
    First,
    Second,
}

// Where a run is: its row, how many loops are open, the heights of both stacks, and how many steps are left.
#[derive(Clone, Copy)]
pub struct Place {
    pub at: RowNumber,
    pub depth: usize,
    pub values: usize,
    pub turns: usize,
    pub left: usize,
}

// What the outer loop meets at a place: the run's end, a row that asks whether a < b, an "if" or a loop with a test, or another row, each row with the place after it.
#[derive(Clone, Copy)]
pub enum Met {
    Out(Ended),
    Ask(RowWords, Place),
    Other(RowWords, Place),
}

// A loop under way: the row that its next turn begins with, and what is noted of it, twice the turns still to come, with 1 more where its row is asked
// before each.
#[derive(Clone, Copy)]
pub struct Loop {
    pub body: usize,
    pub note: usize,
}

// What fills the array of open loops at first.
pub const NO_LOOP: Loop = Loop { body: 0, note: 0 };

// A loop with a test at its own row: the turns that it may still do, what is noted of it in another turn, and how many loops are open around it.
#[derive(Clone, Copy)]
pub struct Pending {
    pub left: usize,
    pub note: usize,
    pub depth: usize,
}

// The row that is expected after one that was done: a clear after a copy, a sum after a product, a copy and its clear after a value was taken back. A runner may
// look there for it first: this spares it the choice among all kinds. The expectation says nothing of the row that stands there.
#[derive(Clone, Copy)]
pub enum Ahead {
    Any,
    Clear,
    Sum,
    Copy,
}

// What a straight row comes to: the place after it, with what is expected there. `Block` is the answer where no straight row stands or no step is left
// for it.
#[derive(Clone, Copy)]
pub enum Acted {
    On(Place, Ahead),
    Block,
    Stopped,
    Stuck,
}

// Why a run is left: at its end, at a row whose result isn't finite, where the machine is stuck, or because the steps have run out.
#[derive(Clone, Copy)]
pub enum Ended {
    Finished,
    Stopped(RowNumber),
    Stuck,
    Unfinished,
}

impl From<Stuck> for Ended {
    ghost from_gives = { λ _ e. e ≡ Stuck };

    fn from(_stuck: Stuck) -> Ended {
        Ended::Stuck
    }
}

// Where a run is left, and why.
#[derive(Clone, Copy)]
pub struct Ran {
    pub place: Place,
    pub ended: Ended,
}
