// What is known of an assignment, and its byte of marks, by the three sets at its points.
ghost use Rattle.std.specs.Prelude.{◌≡◌, suc, ◌+◌, ◌≤◌, ◌<◌, length};
ghost use Rattle.sets.specs.Inner.Operations.{Gives, activity_by};
ghost use Rattle.sets.specs.Rounds.{set_at};
ghost use Rattle.sets.specs.Transfers.{activity_of};
ghost use Rattle.sets.specs.MarkBytes.{weight_if};
ghost use Rattle.sets.specs.Inner.RowBytes.{byte_for};

use super::operations::MaskedAssignment;
use super::transfers::KnownActivity;
use super::{ACTIVE, SAVED, VARIED_A, VARIED_B, equations, transfers};
use sheet::RowNumber;

// By the variables varied before the row and useful after it.
pub fn activity_at(
    row: RowNumber,
    operation: MaskedAssignment,
    varied: &[u64],
    useful: &[u64],
) -> KnownActivity
    requires { (row.0 < length varied.now) × (suc row.0 < length useful.now) }
    ensures { Gives operation (activity_by result) (λ b. activity_of b (set_at varied.now row.0) (set_at useful.now (row.0 + 1))) }
{
    let before = equations::set_at(varied, row.0);
    let after = equations::set_at(useful, row.0 + 1);
    transfers::activity(operation, before, after)
}

// Not one generic function with `masks::only_if`: a bound by which a type has a zero, and what it is, says more than both functions do.
fn weight_if(there: bool, weight: u8) -> u8
    ensures { (result ≡ weight_if there weight) × (result ≤ weight) }
{
    if there { weight } else { 0 }
}

// `required` are the variables required before the row.
pub fn row_byte(row: MaskedAssignment, known: KnownActivity, required: u64) -> u8
    ensures { Gives row result (byte_for (activity_by known) required) }
{
    let saved = transfers::recorded(row, known, required);
    weight_if(known.varied_a, VARIED_A)
        + weight_if(known.varied_b, VARIED_B)
        + weight_if(known.active, ACTIVE)
        + weight_if(saved, SAVED)
}
