// The rows of each kind that work on numbers. An assignment that the arithmetic stops stops the row.
#![tactic(auto)]

ghost use Rattle.std.specs.Prelude.{cond, ◌≡◌, ◌<◌, length};
ghost use Rattle.number.specs.Arithmetic.{arithmetic_on};
ghost use Rattle.number.specs.Answers.{outcome_of};
ghost use Rattle.sheet.specs.Rows.{copy, sum, difference, product, negation, quotient, is_dependent};
ghost use Rattle.table.specs.TableRows.{save, take_back};
ghost use Rattle.machine.specs.Inner.RowAnswers.{whether_did, tried};
ghost use Rattle.machine.specs.Actions.{from_outcome, through};
ghost use Rattle.machine.specs.Inner.Buffers.{Evaluates, EvaluatesFixed, Assigns, Clears, MovesValues, Compares, TurnsRound};

use machine::{Branch, Stuck};
use number::Number;
use sheet::{Variable, is_dependent};

// Kind 1.
pub fn copy_of<N: Number>(store: &[N], a: Variable) -> Result<N, N::Stop>
    requires { a.0 < length store.now }
    ensures { Evaluates (arithmetic_on N.operations) (copy a.0) store.now (from_outcome (outcome_of N.why result)) }
{
    Ok(store[a.0])
}

// Kind 2.
pub fn fixed<N: Number>(constants: &[u16], c: usize) -> N
    requires { c < length constants.now }
    ensures { EvaluatesFixed (arithmetic_on N.operations) c constants.now (through result) }
{
    N::constant(constants[c])
}

// Kind 3.
pub fn added<N: Number>(store: &[N], a: Variable, b: Variable) -> Result<N, N::Stop>
    requires a_in { a.0 < length store.now }
    requires b_in { b.0 < length store.now }
    ensures { Evaluates (arithmetic_on N.operations) (sum a.0 b.0) store.now (from_outcome (outcome_of N.why result)) }
{
    store[a.0].sum(store[b.0])
}

// Kind 4.
pub fn subtracted<N: Number>(store: &[N], a: Variable, b: Variable) -> Result<N, N::Stop>
    requires a_in { a.0 < length store.now }
    requires b_in { b.0 < length store.now }
    ensures { Evaluates (arithmetic_on N.operations) (difference a.0 b.0) store.now (from_outcome (outcome_of N.why result)) }
{
    store[a.0].difference(store[b.0])
}

// Kind 5.
pub fn multiplied<N: Number>(store: &[N], a: Variable, b: Variable) -> Result<N, N::Stop>
    requires a_in { a.0 < length store.now }
    requires b_in { b.0 < length store.now }
    ensures { Evaluates (arithmetic_on N.operations) (product a.0 b.0) store.now (from_outcome (outcome_of N.why result)) }
{
    store[a.0].product(store[b.0])
}

// Kind 6.
pub fn negated<N: Number>(store: &[N], a: Variable) -> Result<N, N::Stop>
    requires { a.0 < length store.now }
    ensures { Evaluates (arithmetic_on N.operations) (negation a.0) store.now (from_outcome (outcome_of N.why result)) }
{
    store[a.0].negation()
}

// Kind 18, where the arithmetic divides.
pub fn divided<N: Number>(store: &[N], a: Variable, b: Variable) -> Option<Result<N, N::Stop>>
    requires a_in { a.0 < length store.now }
    requires b_in { b.0 < length store.now }
    ensures { Evaluates (arithmetic_on N.operations) (quotient a.0 b.0) store.now (tried N.why result) }
{
    store[a.0].quotient(store[b.0])
}

// Kinds 1 to 6 and 18, from what the right side came to.
pub fn assign<N: Number>(
    store: &mut [N],
    d: Variable,
    outcome: Result<N, N::Stop>,
) -> Result<(), N::Stop>
    requires { d.0 < length store.old }
    ensures { Assigns (arithmetic_on N.operations) d.0 (from_outcome (outcome_of N.why outcome)) store.old store.new (whether_did N.why result) }
{
    store[d.0] = outcome?;
    Ok(())
}

// Kind 16.
pub fn clear<N: Number>(store: &mut [N], d: Variable) -> Result<(), Stuck>
    requires { d.0 < length store.old }
    ensures { Clears (arithmetic_on N.operations) d.0 store.old store.new result }
{
    store[d.0] = N::zero();
    Ok(())
}

// Kind 12.
pub fn save<N: Number>(
    store: &[N],
    d: Variable,
    values: &mut [N],
    height: usize,
) -> Result<usize, Stuck>
    requires { d.0 < length store.now }
    ensures { MovesValues (arithmetic_on N.operations) (save d.0) store.now values.old height store.now values.new result }
{
    if values.len() <= height {
        return Err(Stuck);
    }
    values[height] = store[d.0];
    Ok(height + 1)
}

// Kind 13. The place that is taken back is cleared, so that a stack's cells above its height are zeros always.
pub fn take_back<N: Number>(
    store: &mut [N],
    d: Variable,
    values: &mut [N],
    height: usize,
) -> Result<usize, Stuck>
    requires { d.0 < length store.old }
    ensures { MovesValues (arithmetic_on N.operations) (take_back d.0) store.old values.old height store.new values.new result }
{
    if height == 0 {
        return Err(Stuck);
    }
    let top = height - 1;
    if values.len() <= top {
        return Err(Stuck);
    }
    store[d.0] = values[top];
    values[top] = N::zero();
    Ok(top)
}

// Kind 7.
pub fn test<N: Number>(store: &[N], a: Variable, b: Variable) -> Branch
    requires a_in { a.0 < length store.now }
    requires b_in { b.0 < length store.now }
    ensures { Compares (arithmetic_on N.operations) a.0 b.0 store.now result }
{
    if store[a.0].less(store[b.0]) {
        Branch::First
    } else {
        Branch::Second
    }
}

// What row 17 sets an adjoint to.
fn seed_or_zero<N: Number>(role: u16, seed: N) -> N
    ensures { result ≡ cond (is_dependent role) seed (arithmetic_on N.operations).zero }
{
    if is_dependent(role) { seed } else { N::zero() }
}

// Kind 17. An adjoint's 0 and its seed are set at once.
pub fn turn_round<N: Number>(
    roles: &[u16],
    seeds: &[N],
    store: &mut [N],
    copied: &mut [N],
) -> Result<(), Stuck>
    ensures { TurnsRound (arithmetic_on N.operations) roles.now seeds.now store.old copied.old
        store.new copied.new result }
{
    let variables = roles.len();
    if seeds.len() != variables {
        return Err(Stuck);
    }
    if copied.len() != variables {
        return Err(Stuck);
    }
    if store.len() < variables + variables {
        return Err(Stuck);
    }
    for i in 0..variables {
        copied[i] = store[i];
        store[variables + i] = seed_or_zero(roles[i], seeds[i]);
    }
    Ok(())
}
