// The row machine on numbers of either arithmetic: a run of a table's rows. Its modules hold the rows of each kind, a straight row's step, and the row
// that is expected after it.
#![tactic(auto)]

ghost use Rattle.std.specs.Prelude.{◌≤◌, length};
ghost use Rattle.number.specs.Arithmetic.{arithmetic_on};
ghost use Rattle.sheet.specs.Bounds.{limit};
ghost use Rattle.machine.specs.Inner.Buffers.{cells_of};
ghost use Rattle.machine.specs.Inner.RowsHanded.{Indexed, Indexes};
ghost use Rattle.machine.specs.Inner.RowSteps.{BlockRow};
ghost use Rattle.machine.specs.Inner.RunsRows.{RunsRows};

mod ahead;
mod rows;
mod straight;

use ahead::peek;
use machine::blocks::{ask_row, cross};
use machine::rows::{block_at, reach};
use machine::{Acted, Ended, Loop, Met, Place, Ran};
use number::Number;
use rows::test;
use sheet::{MAX_DEPTH, Variable};
use straight::straight_row;

// What is run: a table's rows, where each "if", "else" and "repeat" among them goes on to, and whether a loop with a test puts its count away.
#[derive(Clone, Copy)]
pub struct Program<'a> {
    pub table: &'a [u16],
    pub rows: usize,
    pub beyond: &'a [u16],
    pub keeps: bool,
}

// What a program is run with: its sheet's roles and constants, and a seed for each variable.
#[derive(Clone, Copy)]
pub struct Given<'a, N> {
    pub roles: &'a [u16],
    pub constants: &'a [u16],
    pub seeds: &'a [N],
}

// The row of a block at a place, or the end.
fn block_row<N: Number>(
    table: &[u16],
    rows: usize,
    beyond: &[u16],
    keeps: bool,
    store: &[N],
    turns: &mut [u16],
    loops: &mut [Loop; MAX_DEPTH],
    place: Place,
) -> Result<Place, Ended>
    requires { Indexes table.now rows (length store.now) }
    ensures { BlockRow (arithmetic_on N.operations) table.now rows beyond.now keeps place store.now
        turns.old loops.old turns.new loops.new result }
{
    match block_at(table, rows, place) {
        Met::Out(ended) => Err(ended),
        Met::Other(row, next) => cross(row, beyond, place.at, next, turns, loops),
        Met::Ask(row, next) => {
            let branch = test(store, Variable(row.a as usize), Variable(row.b as usize));
            ask_row(branch, row, keeps, beyond, place.at, next, turns, loops)
        }
    }
}

// A run of a table's rows, of so many steps at most. A result that isn't finite, a row that can't be done or that no step is left for leaves both
// loops at once. After each straight row it peeks at the next.
pub fn run_rows<N: Number>(
    program: Program,
    given: Given<N>,
    store: &mut [N],
    values: &mut [N],
    turns: &mut [u16],
    copied: &mut [N],
    loops: &mut [Loop; MAX_DEPTH],
    steps: usize,
) -> Ran
    requires indexed { Indexed program.table.now program.rows (length store.old) (length given.constants.now) }
    requires loops_fit { limit.depth ≤ length loops.old }
    ensures { RunsRows (arithmetic_on N.operations) program.entry.table.now program.entry.rows program.entry.beyond.now program.entry.keeps
        given.entry.roles.now given.entry.constants.now given.entry.seeds.now steps
        (cells_of (arithmetic_on N.operations) store.old values.old turns.old copied.old)
        (cells_of (arithmetic_on N.operations) store.new values.new turns.new copied.new)
        loops.new result }
{
    // Taken apart once, for the rows' functions are handed slices (`straight_row`).
    let table = program.table;
    let rows = program.rows;
    let beyond = program.beyond;
    let keeps = program.keeps;
    let roles = given.roles;
    let constants = given.constants;
    let seeds = given.seeds;
    let mut place = Place::first(steps);
    'run: loop {
        let until = reach(rows, place);
        loop {
            match straight_row(
                table, until, roles, constants, seeds, store, values, turns, copied, place,
            ) {
                Acted::On(next, ahead) => place = peek(table, until, store, ahead, next),
                Acted::Block => break,
                Acted::Stopped => break 'run place.left_by(Ended::Stopped(place.at)),
                Acted::Stuck => break 'run place.left_by(Ended::Stuck),
            }
        }
        match block_row(table, rows, beyond, keeps, store, turns, loops, place) {
            Ok(next) => place = next,
            Err(ended) => break 'run place.left_by(ended),
        }
    }
}
