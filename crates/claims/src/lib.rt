// Each public call once more, with the demands as its contract: that they follow from what the call itself promises is proved here of the code.
// And `balance`, which runs both directions. The statements are in specs/, the theorems in proofs/.
#![tactic(auto)]

ghost use Rattle.std.specs.Prelude.{◌≡◌, ◌≤◌, length};
ghost use Rattle.number.specs.Doubles.{doubles};
ghost use Rattle.number.specs.Residues.{residues};
ghost use Rattle.table.specs.Sizes.{checked_said, written_of};
ghost use Rattle.run.specs.Runs.{lent_of, ran_of};
ghost use Rattle.tangent.specs.TangentRuns.{without_stacks};
ghost use Rattle.plain.specs.Carries.{carry_of};
ghost use Rattle.claims.specs.Demands.{CheckExactly, WriteExactly, RunMeets, AuditMeets};
ghost use Rattle.claims.specs.Tangents.{TangentWriteExactly, TangentMeets, TangentAuditMeets, PlainMeets};
ghost use Rattle.claims.specs.Balance.{weighed_of, BalanceMeets};
ghost use Rattle.claims.specs.Inner.Summing.{dot_of, HalvesLong, sums_of, sums_if_done};

use number::residue;

// What both runs answer, and 02 §5's two sums.
#[derive(Clone, Copy)]
struct Sums {
    adjoint: table::Reply,
    tangent: table::Reply,
    of_rates: u32,
    of_adjoints: u32,
}

fn check(words: &[u16]) -> table::Checked
    ensures { CheckExactly words.now (checked_said result) }
{
    table::check(words)
}

fn write(words: &[u16], table: &mut [u16]) -> table::Reply
    ensures { WriteExactly words.now table.old (written_of result table.new) }
{
    writer::write(words, table)
}

fn run_double(
    words: &[u16],
    table: &mut [u16],
    values: &mut [f64],
    turns: &mut [u16],
    starts: &[f64],
    seeds: &[f64],
    res: &mut [f64],
) -> table::Reply
    ensures { RunMeets doubles words.now starts.now seeds.now
        (lent_of doubles table.old values.old turns.old res.old)
        (ran_of doubles result (lent_of doubles table.new values.new turns.new res.new)) }
{
    run::run_double(words, table, values, turns, starts, seeds, res)
}

fn run_audit(
    words: &[u16],
    table: &mut [u16],
    values: &mut [u32],
    turns: &mut [u16],
    starts: &[u32],
    seeds: &[u32],
    res: &mut [u32],
) -> table::Reply
    ensures { AuditMeets words.now starts.now seeds.now
        (lent_of residues table.old values.old turns.old res.old)
        (ran_of residues result (lent_of residues table.new values.new turns.new res.new)) }
{
    run::run_audit(words, table, values, turns, starts, seeds, res)
}

fn write_tangent(words: &[u16], table: &mut [u16]) -> table::Reply
    ensures { TangentWriteExactly words.now table.old (written_of result table.new) }
{
    tangent::write_tangent(words, table)
}

fn tangent_double(
    words: &[u16],
    table: &mut [u16],
    starts: &[f64],
    rates: &[f64],
    res: &mut [f64],
) -> table::Reply
    ensures { TangentMeets doubles words.now starts.now rates.now
        (without_stacks doubles table.old res.old) (ran_of doubles result (without_stacks doubles table.new res.new)) }
{
    tangent::tangent_double(words, table, starts, rates, res)
}

fn tangent_audit(
    words: &[u16],
    table: &mut [u16],
    starts: &[u32],
    rates: &[u32],
    res: &mut [u32],
) -> table::Reply
    ensures { TangentAuditMeets words.now starts.now rates.now
        (without_stacks residues table.old res.old) (ran_of residues result (without_stacks residues table.new res.new)) }
{
    tangent::tangent_audit(words, table, starts, rates, res)
}

fn tangent_plain(words: &[u16], starts: &[f64], rates: &[f64], res: &mut [f64]) -> table::Reply
    ensures { PlainMeets doubles words.now starts.now rates.now res.old
        (carry_of doubles result res.new) }
{
    plain::tangent_plain(words, starts, rates, res)
}

fn dot(ones: &[u32], others: &[u32]) -> u32
    requires { length ones.now ≤ length others.now }
    ensures { result ≡ dot_of ones.now others.now }
{
    let mut sum: u32 = 0;
    for i in 0..ones.len() {
        sum = residue::sum(sum, residue::product(ones[i], others[i]));
    }
    sum
}

// Both sums, over the second halves of what both runs left.
fn summed(
    adjoint: table::Reply,
    tangent: table::Reply,
    variables: usize,
    seeds: &[u32],
    rates: &[u32],
    adjoints: &[u32],
    tangents: &[u32],
) -> Sums
    requires { HalvesLong variables seeds.now rates.now adjoints.now tangents.now }
    ensures { result ≡ sums_of adjoint tangent variables seeds.now rates.now adjoints.now tangents.now }
{
    let of_rates = dot(seeds, &tangents[variables..]);
    let of_adjoints = dot(&adjoints[variables..], rates);
    Sums {
        adjoint,
        tangent,
        of_rates,
        of_adjoints,
    }
}

// Where one run refused there is nothing to sum.
fn summed_if_done(
    adjoint: table::Reply,
    tangent: table::Reply,
    variables: usize,
    seeds: &[u32],
    rates: &[u32],
    adjoints: &[u32],
    tangents: &[u32],
) -> Sums
    requires { adjoint.number ≡ 0 → tangent.number ≡ 0 → HalvesLong variables seeds.now rates.now adjoints.now tangents.now }
    ensures { result ≡ sums_if_done adjoint tangent variables seeds.now rates.now adjoints.now tangents.now }
{
    if adjoint.number == table::DONE {
        if tangent.number == table::DONE {
            return summed(
                adjoint, tangent, variables, seeds, rates, adjoints, tangents,
            );
        }
    }
    Sums {
        adjoint,
        tangent,
        of_rates: 0,
        of_adjoints: 0,
    }
}

// Both directions of one sheet in audit, each on its own buffers, and the two sums that 02 §5 holds against each other.
fn balance(
    words: &[u16],
    table: &mut [u16],
    values: &mut [u32],
    turns: &mut [u16],
    tangent_table: &mut [u16],
    starts: &[u32],
    seeds: &[u32],
    rates: &[u32],
    adjoints: &mut [u32],
    tangents: &mut [u32],
) -> Sums
    ensures { BalanceMeets words.now starts.now seeds.now rates.now
        (lent_of residues table.old values.old turns.old adjoints.old)
        (without_stacks residues tangent_table.old tangents.old)
        (weighed_of result (lent_of residues table.new values.new turns.new adjoints.new)
        (without_stacks residues tangent_table.new tangents.new)) }
{
    let adjoint = run::run_audit(words, table, values, turns, starts, seeds, adjoints);
    let tangent = tangent::tangent_audit(words, tangent_table, starts, rates, tangents);
    let variables = starts.len();
    summed_if_done(
        adjoint, tangent, variables, seeds, rates, adjoints, tangents,
    )
}
