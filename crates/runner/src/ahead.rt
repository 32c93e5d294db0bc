// The row after a straight one, done at once where it is the row that is expected there.
#![tactic(auto)]

ghost use Rattle.std.specs.Prelude.{◌+◌, ◌≤◌, length};
ghost use Rattle.number.specs.Arithmetic.{arithmetic_on};
ghost use Rattle.machine.specs.Inner.RowsHanded.{Indexes};
ghost use Rattle.machine.specs.Inner.RowSteps.{Peeks, PeeksOn};

use super::rows::{added, copy_of};
use machine::rows::kind_at;
use machine::{Ahead, Place};
use number::Number;
use sheet::{Variable, kinds};

// A clear, if one stands at this place before `until`; otherwise nothing.
fn clear_ahead<N: Number>(table: &[u16], until: usize, store: &mut [N], place: Place) -> Place
    requires indexed { Indexes table.now until (length store.old) }
    requires until_in { until ≤ place.at.0 + place.left }
    ensures { Peeks (arithmetic_on N.operations) table.now until place store.old store.new result }
{
    let Some((row, next)) = kind_at(table, until, place, table::kinds::CLEAR) else {
        return place;
    };
    store[row.d as usize] = N::zero();
    next
}

// The same of a copy.
fn copy_ahead<N: Number>(table: &[u16], until: usize, store: &mut [N], place: Place) -> Place
    requires indexed { Indexes table.now until (length store.old) }
    requires until_in { until ≤ place.at.0 + place.left }
    ensures { Peeks (arithmetic_on N.operations) table.now until place store.old store.new result }
{
    let Some((row, next)) = kind_at(table, until, place, kinds::COPY) else {
        return place;
    };
    let Ok(x) = copy_of(store, Variable(row.a as usize)) else {
        return place;
    };
    store[row.d as usize] = x;
    next
}

// And of a sum. One that the arithmetic stops is left for the runner to stop at.
fn sum_ahead<N: Number>(table: &[u16], until: usize, store: &mut [N], place: Place) -> Place
    requires indexed { Indexes table.now until (length store.old) }
    requires until_in { until ≤ place.at.0 + place.left }
    ensures { Peeks (arithmetic_on N.operations) table.now until place store.old store.new result }
{
    let Some((row, next)) = kind_at(table, until, place, kinds::SUM) else {
        return place;
    };
    let Ok(x) = added(store, Variable(row.a as usize), Variable(row.b as usize)) else {
        return place;
    };
    store[row.d as usize] = x;
    next
}

// The row that is expected at a place, if it stands there: none is chosen among all kinds for it. What isn't done here the runner's next turn meets in
// the ordinary way, so that peeking never stops, sticks or runs out of steps.
pub fn peek<N: Number>(
    table: &[u16],
    until: usize,
    store: &mut [N],
    ahead: Ahead,
    place: Place,
) -> Place
    requires indexed { Indexes table.now until (length store.old) }
    requires until_in { until ≤ place.at.0 + place.left }
    ensures { PeeksOn (arithmetic_on N.operations) table.now until place store.old store.new result }
{
    match ahead {
        Ahead::Any => place,
        Ahead::Clear => clear_ahead(table, until, store, place),
        Ahead::Sum => sum_ahead(table, until, store, place),
        Ahead::Copy => {
            let copied = copy_ahead(table, until, store, place);
            clear_ahead(table, until, store, copied)
        }
    }
}
