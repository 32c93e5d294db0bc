// The pairs that the engine works on: laid from what a call is lent, and written out as its result.
ghost use Rattle.std.specs.Prelude.{◌≡◌, ◌*◌, ◌≤◌, length};
ghost use Rattle.number.specs.Doubles.{doubles};
ghost use Rattle.sheet.specs.Bounds.{limit};
ghost use Rattle.tangent.specs.TangentRuns.{starting_rates};
ghost use Rattle.plain.specs.Inner.Engine.{carried_in, result_of};

use super::Rated;
use number::Number;
use run::buffers;
use sheet::{MAX_VARIABLES, is_dependent, is_independent};

// "Starting rates are read at independents only and are 0 elsewhere"
pub fn laid(roles: &[u16], starts: &[f64], rates: &[f64]) -> [Rated; MAX_VARIABLES]
    requires roles_few { length roles.now ≤ limit.variables }
    requires starts_fit { length starts.now ≡ length roles.now }
    requires rates_fit { length rates.now ≡ length roles.now }
    ensures { (carried_in (length roles.now) result
        ≡ record { values = starts.now; rates = starting_rates doubles roles.now rates.now }) × (length result ≡ limit.variables) }
{
    let none = Rated {
        value: f64::zero(),
        rate: f64::zero(),
    };
    let mut cells = [none; MAX_VARIABLES];
    for i in 0..roles.len() {
        let rate = buffers::number_or_zero(is_independent(roles[i]), rates[i]);
        cells[i] = Rated {
            value: starts[i],
            rate,
        };
    }
    cells
}

// "the result is the V values and then each dependent's rate, 0 at others"
pub fn write_out(cells: [Rated; MAX_VARIABLES], roles: &[u16], res: &mut [f64])
    requires cells_fit { length roles.now ≤ length cells }
    requires result_fits { length res.old ≡ 2 * length roles.now }
    ensures { res.new ≡ result_of roles.now (carried_in (length roles.now) cells) }
{
    let variables = roles.len();
    for i in 0..variables {
        let cell = cells[i];
        res[i] = cell.value;
        res[variables + i] = buffers::number_or_zero(is_dependent(roles[i]), cell.rate);
    }
}
