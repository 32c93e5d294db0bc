// The buffers that a run is lent, and what must stand in them after it.
ghost use Rattle.std.specs.Prelude.{◌≤◌, length};

use super::engines::{Engine, Request};
use run::NOT_FINITE_RESULT;
use text::lend::{Lent, PLACES, TABLE_WORDS};
use text::numbers::{Cell, Number};
use text::pattern;

#[derive(Drop)]
pub struct Buffers<T> {
    table: [u16; TABLE_WORDS],
    values: [T; PLACES],
    turns: [u16; PLACES],
    result: [T; PLACES],
}

// The part of each buffer that is lent.
#[derive(Drop)]
pub struct Parts<'a, T> {
    pub table: &'a mut [u16],
    pub values: &'a mut [T],
    pub turns: &'a mut [u16],
    pub result: &'a mut [T],
}

// A function, since the check does not cover `&mut self.table[..count]`, a part of an array behind a reference.
fn start<T>(buffer: &mut [T], count: usize) -> &mut [T]
    requires { count ≤ length buffer.old }
{
    &mut buffer[..count]
}

// On 0 and 12 the table was written and the stacks were cleared.
fn has_run(number: u16) -> bool {
    number == table::DONE || number == NOT_FINITE_RESULT
}

impl<T: Cell> Buffers<T> {
    pub fn new() -> Buffers<T> {
        Buffers {
            table: [0; TABLE_WORDS],
            values: [T::ZERO; PLACES],
            turns: [0; PLACES],
            result: [T::ZERO; PLACES],
        }
    }

    pub fn stamp(&mut self) {
        pattern::fill(&mut self.table);
        pattern::fill(&mut self.values);
        pattern::fill(&mut self.turns);
        pattern::fill(&mut self.result);
    }

    pub fn lend(&mut self, lent: Lent) -> Parts<'_, T> {
        let Buffers {
            table,
            values,
            turns,
            result: res,
        } = self;
        Parts {
            table: start(table, lent.room),
            values: start(values, lent.values),
            turns: start(turns, lent.turns),
            result: start(res, lent.result),
        }
    }

    pub fn printed(&self, lent: Lent) -> &[T] {
        &self.result[..lent.result]
    }

    // Whether the table's buffer holds what the table's writer makes of one like it, or what it held before.
    fn table_stands<E: Engine>(&self, asked: &Request<T>, number: u16) -> bool {
        let mut written = [0u16; TABLE_WORDS];
        pattern::fill(&mut written);
        if has_run(number) {
            E::TABLE.write(asked.words, &mut written[..asked.lent.room]);
        }
        self.table == written
    }

    // Whether each buffer holds what the answer's number fixes, the printed part of the result apart.
    pub fn kept<E: Engine>(&self, asked: &Request<T>, number: u16) -> bool {
        let lent = asked.lent;
        let (values, turns) = if has_run(number) {
            (lent.values, lent.turns)
        } else {
            (0, 0)
        };
        let printed = if number == table::DONE {
            lent.result
        } else {
            0
        };
        self.table_stands::<E>(asked, number)
            && pattern::cleared(&self.values, values)
            && pattern::cleared(&self.turns, turns)
            && pattern::stands(&self.result, printed)
    }
}
