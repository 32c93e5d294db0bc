// The requests that run a sheet, the same for each engine.
use super::answers::Answer;
use super::buffers::Buffers;
use super::engines::{Engine, Request};
use text::fields::{BadLine, End, Fields, MAX_FIELDS};
use text::lend::{Lends, Lent, SHEET_WORDS};
use text::numbers::{Cell, Number};

// Room for what a request gives.
#[derive(Drop)]
struct Given<T> {
    words: [u16; SHEET_WORDS],
    starts: [T; MAX_FIELDS],
    seeds: [T; MAX_FIELDS],
}

impl<T: Number> Given<T> {
    fn read(&mut self, fields: &mut Fields, lends: Lends) -> Result<Request<'_, T>, BadLine> {
        let Given {
            words,
            starts,
            seeds,
        } = self;
        Ok(Request {
            lent: Lent::read(fields, lends)?,
            words: fields.group(End::Slash, words)?,
            starts: fields.group(End::Slash, starts)?,
            seeds: fields.group(End::Line, seeds)?,
        })
    }
}

// All that a run works in.
#[derive(Drop)]
pub struct Memory<T> {
    given: Given<T>,
    buffers: Buffers<T>,
}

impl<T: Cell> Memory<T> {
    fn new() -> Memory<T> {
        let given = Given {
            words: [0; SHEET_WORDS],
            starts: [T::ZERO; MAX_FIELDS],
            seeds: [T::ZERO; MAX_FIELDS],
        };
        Memory {
            given,
            buffers: Buffers::new(),
        }
    }
}

// The memory for runs in either arithmetic. It is made once: made for each run, with all inlined, it took the program 110 microseconds for a
// bad line, and a stack of eight megabytes.
#[derive(Drop)]
pub struct Memories {
    pub residues: Memory<u32>,
    pub doubles: Memory<f64>,
}

impl Memories {
    pub fn new() -> Memories {
        Memories {
            residues: Memory::new(),
            doubles: Memory::new(),
        }
    }
}

// Not inlined, so that a line that is no run has none of its arrays on the stack.
#[inline(never)]
pub fn run_line<E: Engine>(
    fields: &mut Fields,
    memory: &mut Memory<E::Number>,
    out: &mut Answer,
) -> Result<(), BadLine> {
    let Memory { given, buffers } = memory;
    let asked = given.read(fields, E::LENDS)?;
    buffers.stamp();
    let reply = E::run(&asked, buffers.lend(asked.lent));
    out.begin(reply);
    if reply.number == table::DONE {
        out.put_cells(buffers.printed(asked.lent));
    }
    out.end(buffers.kept::<E>(&asked, reply.number));
    Ok(())
}
