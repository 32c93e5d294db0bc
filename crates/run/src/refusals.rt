// Refusals 1 to 11 and 13, judged one after another, and the numbers 9 to 12.
ghost use Rattle.std.specs.Prelude.{◌≡◌, Bool, List, ◌++◌, ℕ, ◌+◌, ◌^◌, ◌<◌, length};
ghost use Rattle.number.specs.Arithmetic.{arithmetic_on, divides};
ghost use Rattle.number.specs.Doubles.{doubles};
ghost use Rattle.sheet.specs.Sheets.{Sheet};
ghost use Rattle.table.specs.Sizes.{Needs};
ghost use Rattle.table.specs.Inner.Plans.{PlanSaysFor, PlanSaysIn, RowsWithin};
ghost use Rattle.run.specs.Calls.{all_admitted};
ghost use Rattle.run.specs.Inner.CallSteps.{fit_said, unfit_refusal, table_fits, stacks_fit, lengths_fit, rooms_fit, Answers, JudgedAs, answer_at};

use super::{Rooms, Unfit};
use machine::Ended;
use number::Number;
use sheet::No;
use table::{Plan, Reply};

// The numbers of these refusals, 8 apart, and of a run that stops.
const SMALL_STACK: u16 = 9;

const WRONG_LENGTH: u16 = 10;

const NOT_FINITE_GIVEN: u16 = 11;

pub const NOT_FINITE_RESULT: u16 = 12;

// No number of 01's: no run ever answers it.
pub const STUCK: u16 = 65535;

// 8
fn table_fits(rows: usize, room: usize) -> Result<(), Unfit>
    ensures { fit_said result ≡ table_fits rows room }
{
    if writer::has_room(rows, room) {
        return Ok(());
    }
    Err(Unfit::SmallTable)
}

// 9
fn stacks_fit(values: usize, value_room: usize, turns: usize, turn_room: usize) -> Result<(), Unfit>
    ensures { fit_said result ≡ stacks_fit values value_room turns turn_room }
{
    if value_room < values {
        return Err(Unfit::SmallValueStack);
    }
    if turn_room < turns {
        return Err(Unfit::SmallTurnStack);
    }
    Ok(())
}

// 10
pub fn lengths_fit(variables: usize, starts: usize, seeds: usize, res: usize) -> Result<(), Unfit>
    ensures { fit_said result ≡ lengths_fit variables starts seeds res }
{
    if starts != variables {
        return Err(Unfit::WrongStarts);
    }
    if seeds != variables {
        return Err(Unfit::WrongSeeds);
    }
    if res % 2 != 0 {
        return Err(Unfit::WrongResult);
    }
    if res / 2 != variables {
        return Err(Unfit::WrongResult);
    }
    Ok(())
}

// 11: the numbers are judged in their order, the first one at this place.
fn admitted_from<N: Number>(numbers: &[N], place: usize) -> Result<(), Unfit>
    requires { place + length numbers.now < 2 ^ 64 }
    ensures { fit_said result ≡ all_admitted (arithmetic_on N.operations) numbers.now place }
{
    for (i, number) in numbers.iter().enumerate() {
        if !number.is_admitted() {
            return Err(Unfit::NotFinite(place + i));
        }
    }
    Ok(())
}

pub fn all_admitted<N: Number>(starts: &[N], seeds: &[N]) -> Result<(), Unfit>
    requires { length starts.now + length seeds.now < 2 ^ 64 }
    ensures { fit_said result ≡ all_admitted (arithmetic_on N.operations) (starts.now ++ seeds.now) 0 }
{
    admitted_from(starts, 0)?;
    admitted_from(seeds, starts.len())
}

// The same of doubles, of which no memory holds so many that their places aren't numbers.
pub fn all_finite(starts: &[f64], seeds: &[f64]) -> Result<(), Unfit>
    ensures { fit_said result ≡ all_admitted doubles (starts.now ++ seeds.now) 0 }
{
    all_admitted(starts, seeds)
}

// 13, where the arithmetic doesn't divide: the plan is for it as well, or refused.
pub fn divisible<N: Number>(words: &[u16], planned: Result<Plan, No>) -> Result<Plan, No>
    requires { RowsWithin words.now planned }
    ensures { (needs : Sheet → Needs) (marks came goes : List ℕ) → PlanSaysFor needs words.now marks came goes planned
        → PlanSaysIn (divides (arithmetic_on N.operations)) needs words.now marks came goes result }
{
    if N::divides() {
        planned
    } else {
        table::undivided(words, planned)
    }
}

// 8 to 10
fn rooms_fit(plan: Plan, rooms: Rooms) -> Result<(), Unfit>
    ensures { fit_said result ≡ rooms_fit plan rooms }
{
    table_fits(plan.rows, rooms.table)?;
    stacks_fit(plan.values, rooms.values, plan.turns, rooms.turns)?;
    let shape = plan.shape;
    lengths_fit(shape.variables, rooms.starts, rooms.seeds, rooms.result)
}

impl From<Unfit> for Reply {
    ghost from_gives = { λ why reply. Answers reply (unfit_refusal why) };

    fn from(why: Unfit) -> Reply {
        match why {
            Unfit::SmallTable => Reply::refused(table::SMALL_TABLE, 0),
            Unfit::SmallValueStack => Reply::refused(SMALL_STACK, 0),
            Unfit::SmallTurnStack => Reply::refused(SMALL_STACK, 1),
            Unfit::WrongStarts => Reply::refused(WRONG_LENGTH, 0),
            Unfit::WrongSeeds => Reply::refused(WRONG_LENGTH, 1),
            Unfit::WrongResult => Reply::refused(WRONG_LENGTH, 2),
            Unfit::NotFinite(place) => Reply::refused(NOT_FINITE_GIVEN, place),
        }
    }
}

// 1 to 10, and 13 where the plan says it: what is lent is held against the sheet's plan, whatever its table needs.
pub fn judge(planned: Result<Plan, No>, rooms: Rooms) -> Result<Plan, Reply>
    ensures { (divides : Bool) (needs : Sheet → Needs) (words marks came goes : List ℕ) → PlanSaysIn divides needs words marks came goes planned
        → JudgedAs divides needs words rooms marks came goes result }
{
    let plan = planned?;
    rooms_fit(plan, rooms)?;
    Ok(plan)
}

// What a run's end is answered by: 0, 12 at its row, or the number of no run.
pub fn answer_end(end: Ended) -> Reply
    ensures { result ≡ answer_at end }
{
    match end {
        Ended::Finished => Reply::done(),
        Ended::Stopped(row) => Reply::refused(NOT_FINITE_RESULT, row.0),
        Ended::Stuck | Ended::Unfinished => Reply::refused(STUCK, 0),
    }
}
