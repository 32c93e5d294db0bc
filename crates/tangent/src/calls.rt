// The call that runs a sheet's tangent table, in either arithmetic: one code for both, and each by its name.
ghost use Rattle.std.specs.Prelude.{◌≡◌, List, ℕ, ◌*◌, ◌≤◌, length, false};
ghost use Rattle.number.specs.Arithmetic.{arithmetic_on};
ghost use Rattle.number.specs.Doubles.{doubles};
ghost use Rattle.number.specs.Residues.{residues};
ghost use Rattle.sheet.specs.Sheets.{Sheet};
ghost use Rattle.table.specs.RowBounds.{table_variables};
ghost use Rattle.machine.specs.Inner.RowsHanded.{Indexed};
ghost use Rattle.run.specs.Runs.{ran_of};
ghost use Rattle.run.specs.Inner.CallSteps.{result_at};
ghost use Rattle.run.specs.Inner.CallAnswers.{RunRoom, Ready, SheetRoom, TableInPlace};
ghost use Rattle.tangent.specs.TangentRuns.{without_stacks};
ghost use Rattle.tangent.specs.Calls.{tangent_of, run_tangent};
ghost use Rattle.tangent.specs.Inner.TangentAnswers.{rates_from, TangentRanTo};

use machine::Ended;
use number::Number;
use run::{Counted, Rooms, buffers, calls, refusals};
use runner::{Given, Program};
use sheet::{MAX_ROWS, MAX_VARIABLES};
use table::{MAX_TABLE_ROWS, Plan, Reply};

// The result out of a run's store: the values, and the rates at dependents.
fn write_rates<N: Number>(end: Ended, roles: &[u16], store: &[N], res: &mut [N])
    requires store_fits { 2 * length roles.now ≤ length store.now }
    requires result_fits { length res.old ≡ 2 * length roles.now }
    ensures { res.new ≡ result_at end (rates_from (arithmetic_on N.operations) roles.now store.now) res.old }
{
    let variables = roles.len();
    calls::write_result(
        end,
        &store[..variables],
        Counted::Dependents,
        roles,
        &store[variables..],
        res,
    );
}

// The run of a tangent table, from the start values and rates to the result, in a store of zeros. The table has no stacks and no row 17, so both
// stacks are empty, no count is kept and nothing is copied. The rates stand where an adjoint's seeds do.
fn run_in<N: Number>(
    program: Program,
    given: Given<N>,
    starts: &[N],
    store: &mut [N],
    copied: &mut [N],
    res: &mut [N],
) -> Reply
    requires indexed { Indexed program.table.now program.rows (length store.old) (length given.constants.now) }
    requires room { RunRoom (arithmetic_on N.operations) given.roles.now starts.now given.seeds.now store.old copied.old res.old }
    ensures { (sheet : Sheet) (buffer : List ℕ) → program.entry.keeps ≡ false
        → Ready (tangent_of sheet) sheet given.entry.roles.now given.entry.constants.now program.entry.table.now program.entry.rows program.entry.beyond.now
        → TangentRanTo (arithmetic_on N.operations) sheet buffer starts.now given.entry.seeds.now res.old result res.new }
{
    let roles = given.roles;
    buffers::lay(starts, Counted::Independents, roles, given.seeds, store);
    let mut no_values = [N::zero(); 1];
    let mut no_turns = [0u16; 1];
    let end = calls::run_table(
        program,
        given,
        store,
        &mut no_values[..0],
        &mut no_turns[..0],
        copied,
    );
    write_rates(end, roles, store, res);
    refusals::answer_end(end)
}

// The run of a sheet whose tangent table has been written, with the table's jumps.
fn run_written<N: Number>(
    words: &[u16],
    plan: Plan,
    table: &[u16],
    beyond: &[u16; MAX_TABLE_ROWS],
    starts: &[N],
    rates: &[N],
    res: &mut [N],
) -> Reply
    requires indexed { Indexed table.now plan.rows (table_variables plan.shape.variables) plan.shape.constants }
    requires room { SheetRoom words.now plan starts.now rates.now res.old }
    ensures { (sheet : Sheet) (buffer : List ℕ) → TableInPlace (tangent_of sheet) words.now plan table.now beyond.now sheet buffer
        → TangentRanTo (arithmetic_on N.operations) sheet buffer starts.now rates.now res.old result res.new }
{
    let shape = plan.shape;
    let variables = shape.variables;
    let roles_end = 1 + variables;
    let first_constant = shape.first_constant;
    let constants_end = first_constant + shape.constants;
    let size = 2 * variables + 2;
    let store: &mut [N] = &mut [N::zero(); buffers::STORE];
    let copied: &mut [N] = &mut [N::zero(); MAX_VARIABLES];
    let program = Program {
        table,
        rows: plan.rows,
        beyond,
        keeps: false,
    };
    let given = Given {
        roles: &words[1..roles_end],
        constants: &words[first_constant..constants_end],
        seeds: rates,
    };
    run_in(
        program,
        given,
        starts,
        &mut store[..size],
        &mut copied[..variables],
        res,
    )
}

// "Starting rates are read at independents only and are 0 elsewhere; the result is the V values and then each dependent's rate, 0 at others."
fn run_sheet<N: Number>(
    words: &[u16],
    table: &mut [u16],
    starts: &[N],
    rates: &[N],
    res: &mut [N],
) -> Reply
    ensures { ran_of (arithmetic_on N.operations) result (without_stacks (arithmetic_on N.operations) table.new res.new)
        ≡ run_tangent (arithmetic_on N.operations) words.now starts.now rates.now
        (without_stacks (arithmetic_on N.operations) table.old res.old) }
{
    let mut marks = [0u8; MAX_ROWS];
    let mut came = [0u16; MAX_ROWS];
    let mut goes = [0u16; MAX_ROWS];
    let rooms = Rooms {
        table: table.len(),
        values: 0,
        turns: 0,
        starts: starts.len(),
        seeds: rates.len(),
        result: res.len(),
    };
    let planned = super::plan_tangent(words, &mut marks, &mut came, &mut goes);
    let allowed = refusals::divisible::<N>(words, planned);
    let plan = match refusals::judge(allowed, rooms) {
        Ok(plan) => plan,
        Err(answer) => return answer,
    };
    if let Err(why) = refusals::all_admitted(starts, rates) {
        return Reply::from(why);
    }
    let mut beyond = [0u16; MAX_TABLE_ROWS];
    super::write_planned(words, plan, &marks, table, &mut beyond);
    run_written(words, plan, table, &beyond, starts, rates, res)
}

// In doubles: under its own name, by which README has it.
pub fn tangent_double(
    words: &[u16],
    table: &mut [u16],
    starts: &[f64],
    rates: &[f64],
    res: &mut [f64],
) -> Reply
    ensures { ran_of doubles result (without_stacks doubles table.new res.new)
        ≡ run_tangent doubles words.now starts.now rates.now (without_stacks doubles table.old res.old) }
{
    run_sheet(words, table, starts, rates, res)
}

// In audit, by its own name for the same reason.
pub fn tangent_audit(
    words: &[u16],
    table: &mut [u16],
    starts: &[u32],
    rates: &[u32],
    res: &mut [u32],
) -> Reply
    ensures { ran_of residues result (without_stacks residues table.new res.new)
        ≡ run_tangent residues words.now starts.now rates.now (without_stacks residues table.old res.old) }
{
    run_sheet(words, table, starts, rates, res)
}
