// What a call does to whole buffers before and after its run: zeros over a stack, what the run starts from in, the result out.
ghost use Rattle.std.specs.Prelude.{◌≡◌, ◌≤◌, cond, length, replicate};
ghost use Rattle.number.specs.Arithmetic.{arithmetic_on};
ghost use Rattle.table.specs.Calls.{overwritten};
ghost use Rattle.machine.specs.Actions.{counting};
ghost use Rattle.run.specs.Inner.CallSteps.{counts_of, HalvesFit, halves_of};

use super::Counted;
use number::Number;
use sheet::{is_dependent, is_independent};

// The originals, their adjoints or rates, t and u.
pub const STORE: usize = 2 * sheet::MAX_VARIABLES + 2;

// As many steps as suffice for any sheet: for each that W counts one more than a row's rows, as an "if" block takes; row 17 and the end.
pub const STEPS: usize = (1 + table::MAX_ROWS_EACH) * sheet::MAX_LONGEST + 2;

// A stack of numbers or of turns.
pub fn clear<T: Copy>(cells: &mut [T], zero: T)
    ensures { cells.new ≡ replicate (length cells.old) zero }
{
    for cell in cells.iter_mut() {
        *cell = zero;
    }
}

pub fn copy<N: Number>(from: &[N], into: &mut [N])
    requires { length from.now ≤ length into.old }
    ensures { into.new ≡ overwritten from.now into.old }
{
    into[..from.len()].copy_from_slice(from);
}

fn counts(counted: Counted, role: u16) -> bool
    ensures { result ≡ counts_of counted role }
{
    match counted {
        Counted::Independents => is_independent(role),
        Counted::Dependents => is_dependent(role),
    }
}

pub fn number_or_zero<N: Number>(counts: bool, number: N) -> N
    ensures { result ≡ cond counts number N.operations.zero }
{
    if counts { number } else { N::zero() }
}

// The numbers where the role counts, zeros elsewhere.
pub fn put<N: Number>(counted: Counted, roles: &[u16], numbers: &[N], into: &mut [N])
    requires numbers_fit { length roles.now ≤ length numbers.now }
    requires room_fits { length roles.now ≤ length into.old }
    ensures { into.new ≡ overwritten (counting (arithmetic_on N.operations) (counts_of counted) roles.now numbers.now) into.old }
{
    for i in 0..roles.len() {
        into[i] = number_or_zero(counts(counted, roles[i]), numbers[i]);
    }
}

// A number for each variable, and then a second one for each.
pub fn lay<N: Number>(first: &[N], counted: Counted, roles: &[u16], second: &[N], into: &mut [N])
    requires { HalvesFit roles.now first.now second.now into.old }
    ensures { into.new
        ≡ overwritten (halves_of (arithmetic_on N.operations) first.now counted roles.now second.now) into.old }
{
    let variables = roles.len();
    copy(first, into);
    put(counted, roles, second, &mut into[variables..]);
}
