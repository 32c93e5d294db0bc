// The calls that run a sheet's adjoint table, in both arithmetics, held against `run` (specs/Calls.antt): refusals first, then the table, the
// machine's run of it (the crate machine), and the result. What is no part of the adjoint alone is there for the runs of other tables.
#![tactic(auto)]

pub mod buffers;
pub mod calls;
pub mod refusals;

pub use calls::{run_audit, run_double};
pub use refusals::NOT_FINITE_RESULT;
use table::{Plan, Reply};

// The lengths of what a run is lent.
#[derive(Clone, Copy)]
pub struct Rooms {
    pub table: usize,
    pub values: usize,
    pub turns: usize,
    pub starts: usize,
    pub seeds: usize,
    pub result: usize,
}

// What refuses a planned sheet's run, refusals 8 to 11. A start value or seed that isn't finite has its place.
#[derive(Clone, Copy)]
pub enum Unfit {
    SmallTable,
    SmallValueStack,
    SmallTurnStack,
    WrongStarts,
    WrongSeeds,
    WrongResult,
    NotFinite(usize),
}

// The roles at which numbers are read or put; the others' are 0.
#[derive(Clone, Copy)]
pub enum Counted {
    Independents,
    Dependents,
}
