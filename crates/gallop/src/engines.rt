// The calls that write a table and those that run a sheet.
use super::buffers::Parts;
use table::Reply;
use text::lend::{Lends, Lent};
use text::numbers::Cell;

// A sheet has two tables. An enum, and not a trait as for the runs: there is but one call, and a run names its table as a constant.
#[derive(Clone, Copy)]
pub enum Direction {
    Adjoint,
    Tangent,
}

impl Direction {
    pub fn write(self, words: &[u16], table: &mut [u16]) -> Reply {
        match self {
            Direction::Adjoint => writer::write(words, table),
            Direction::Tangent => tangent::write_tangent(words, table),
        }
    }
}

// What a run is asked. A tangent's rates stand where an adjoint's seeds do.
#[derive(Clone, Copy)]
pub struct Request<'a, T> {
    pub lent: Lent,
    pub words: &'a [u16],
    pub starts: &'a [T],
    pub seeds: &'a [T],
}

// A run, by its verb.
pub trait Engine {
    type Number: Cell;

    const LENDS: Lends;

    // The table that the run writes. The plain engine is lent no room for its own.
    const TABLE: Direction;

    fn run(asked: &Request<Self::Number>, lent: Parts<Self::Number>) -> Reply;
}

pub struct Audit;

impl Engine for Audit {
    type Number = u32;

    const LENDS: Lends = Lends::All;

    const TABLE: Direction = Direction::Adjoint;

    fn run(asked: &Request<u32>, lent: Parts<u32>) -> Reply {
        let Parts {
            table,
            values,
            turns,
            result: res,
        } = lent;
        run::run_audit(
            asked.words,
            table,
            values,
            turns,
            asked.starts,
            asked.seeds,
            res,
        )
    }
}

pub struct Double;

impl Engine for Double {
    type Number = f64;

    const LENDS: Lends = Lends::All;

    const TABLE: Direction = Direction::Adjoint;

    fn run(asked: &Request<f64>, lent: Parts<f64>) -> Reply {
        let Parts {
            table,
            values,
            turns,
            result: res,
        } = lent;
        run::run_double(
            asked.words,
            table,
            values,
            turns,
            asked.starts,
            asked.seeds,
            res,
        )
    }
}

// A tangent's run needs no stacks.
pub struct TangentAudit;

impl Engine for TangentAudit {
    type Number = u32;

    const LENDS: Lends = Lends::TableAndResult;

    const TABLE: Direction = Direction::Tangent;

    fn run(asked: &Request<u32>, lent: Parts<u32>) -> Reply {
        let Parts {
            table,
            result: res,
            ..
        } = lent;
        tangent::tangent_audit(asked.words, table, asked.starts, asked.seeds, res)
    }
}

pub struct TangentDouble;

impl Engine for TangentDouble {
    type Number = f64;

    const LENDS: Lends = Lends::TableAndResult;

    const TABLE: Direction = Direction::Tangent;

    fn run(asked: &Request<f64>, lent: Parts<f64>) -> Reply {
        let Parts {
            table,
            result: res,
            ..
        } = lent;
        tangent::tangent_double(asked.words, table, asked.starts, asked.seeds, res)
    }
}

// It goes straight through the sheet.
pub struct Plain;

impl Engine for Plain {
    type Number = f64;

    const LENDS: Lends = Lends::Result;

    const TABLE: Direction = Direction::Tangent;

    fn run(asked: &Request<f64>, lent: Parts<f64>) -> Reply {
        plain::tangent_plain(asked.words, asked.starts, asked.seeds, lent.result)
    }
}
