// A straight row: one choice of its kind, and the row that stands at a place.
#![tactic(auto)]

ghost use Rattle.std.specs.Prelude.{◌+◌, ◌≤◌, length};
ghost use Rattle.number.specs.Arithmetic.{arithmetic_on};
ghost use Rattle.sheet.specs.Answers.{row_said};
ghost use Rattle.machine.specs.Inner.Buffers.{cells_of};
ghost use Rattle.machine.specs.Inner.RowsHanded.{Indexed};
ghost use Rattle.machine.specs.Inner.RowWords.{action_of, Named};
ghost use Rattle.machine.specs.Inner.RowSteps.{ActsBy, StraightRow};

use super::rows::{
    added, assign, clear, copy_of, divided, fixed, multiplied, negated, save, subtracted,
    take_back, turn_round,
};
use machine::places::{did_to, turns_to, values_to, went_to};
use machine::turns::{is_first, save_turn};
use machine::{Acted, Ahead, Place};
use number::Number;
use sheet::{ROW_WORDS, RowNumber, RowWords, Variable, kinds};

// A straight row, by one choice of its kind. `next` is the place of the row after it; `Block` is the answer to a row of another kind.
fn act<N: Number>(
    row: RowWords,
    roles: &[u16],
    constants: &[u16],
    seeds: &[N],
    store: &mut [N],
    values: &mut [N],
    turns: &mut [u16],
    copied: &mut [N],
    next: Place,
) -> Acted
    requires { Named (length store.old) (length constants.now) (action_of (row_said row)) }
    ensures { ActsBy (arithmetic_on N.operations) (row_said row) roles.now constants.now seeds.now next
        (cells_of (arithmetic_on N.operations) store.old values.old turns.old copied.old)
        (cells_of (arithmetic_on N.operations) store.new values.new turns.new copied.new) result }
{
    let d = Variable(row.d as usize);
    let a = Variable(row.a as usize);
    let b = Variable(row.b as usize);
    match row.kind {
        kinds::COPY => did_to(assign(store, d, copy_of(store, a)), next, Ahead::Clear),
        kinds::CONSTANT => did_to(
            assign(store, d, Ok(fixed(constants, a.0))),
            next,
            Ahead::Any,
        ),
        kinds::SUM => did_to(assign(store, d, added(store, a, b)), next, Ahead::Any),
        kinds::DIFFERENCE => did_to(assign(store, d, subtracted(store, a, b)), next, Ahead::Any),
        kinds::PRODUCT => did_to(assign(store, d, multiplied(store, a, b)), next, Ahead::Sum),
        kinds::NEGATION => did_to(assign(store, d, negated(store, a)), next, Ahead::Any),
        table::kinds::SAVE => values_to(save(store, d, values, next.values), next, Ahead::Any),
        table::kinds::TAKE_BACK => values_to(
            take_back(store, d, values, next.values),
            next,
            Ahead::Copy,
        ),
        table::kinds::SAVE_TURN => turns_to(save_turn(is_first(row.a), turns, next.turns), next),
        table::kinds::CLEAR => went_to(clear(store, d), next),
        table::kinds::TURN_ROUND => went_to(turn_round(roles, seeds, store, copied), next),
        // No residue stands for a quotient: 13 refuses the sheet.
        kinds::QUOTIENT => match divided(store, a, b) {
            Some(outcome) => did_to(assign(store, d, outcome), next, Ahead::Sum),
            None => Acted::Stuck,
        },
        _ => Acted::Block,
    }
}

// The straight row at a place, if one stands there before `until`, which is as far as steps are left. Its words are read one by one: as a struct that
// another function answers they would be packed into one number, and taken apart again.
// Handed on as slices: in the sets a struct of slices handed on at each row, as tried, cost 3 to 11 % more instructions.
pub fn straight_row<N: Number>(
    table: &[u16],
    until: usize,
    roles: &[u16],
    constants: &[u16],
    seeds: &[N],
    store: &mut [N],
    values: &mut [N],
    turns: &mut [u16],
    copied: &mut [N],
    place: Place,
) -> Acted
    requires indexed { Indexed table.now until (length store.old) (length constants.now) }
    requires until_in { until ≤ place.at.0 + place.left }
    ensures { StraightRow (arithmetic_on N.operations) table.now until roles.now constants.now seeds.now place
        (cells_of (arithmetic_on N.operations) store.old values.old turns.old copied.old)
        (cells_of (arithmetic_on N.operations) store.new values.new turns.new copied.new) result }
{
    let number = place.at.0;
    if until <= number {
        return Acted::Block;
    }
    let from = 1 + number * ROW_WORDS;
    let kind = table[from];
    let d = table[from + 1];
    let a = table[from + 2];
    let b = table[from + 3];
    let after = RowNumber(number + 1);
    let next = place.following(after, place.left - 1);
    let row = RowWords { kind, d, a, b };
    act(
        row, roles, constants, seeds, store, values, turns, copied, next,
    )
}
