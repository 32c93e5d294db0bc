// The call that runs a sheet, in either arithmetic: one code for both, and each by its name.
ghost use Rattle.std.specs.Prelude.{◌≡◌, List, ℕ, length, true};
ghost use Rattle.number.specs.Arithmetic.{arithmetic_on};
ghost use Rattle.number.specs.Doubles.{doubles};
ghost use Rattle.number.specs.Residues.{residues};
ghost use Rattle.sheet.specs.Sheets.{Sheet};
ghost use Rattle.table.specs.RowBounds.{table_variables};
ghost use Rattle.table.specs.Computed.{table_of};
ghost use Rattle.machine.specs.Inner.RowsHanded.{Indexed};
ghost use Rattle.machine.specs.Inner.Buffers.{cells_of};
ghost use Rattle.run.specs.Runs.{lent_of, ran_of};
ghost use Rattle.run.specs.Calls.{run};
ghost use Rattle.run.specs.Inner.CallSteps.{ResultFits, result_at, halves_of};
ghost use Rattle.run.specs.Inner.TableRuns.{RunsTable};
ghost use Rattle.run.specs.Inner.CallAnswers.{StacksCleared, RunRoom, Ready, SheetRoom, TableInPlace, AdjointRanTo};

use super::{Counted, Rooms, buffers, refusals};
use machine::{Ended, NO_LOOP};
use number::Number;
use runner::{Given, Program};
use sheet::{MAX_DEPTH, MAX_ROWS, MAX_VARIABLES};
use table::{MAX_TABLE_ROWS, Plan, Reply};

fn clear_stacks<N: Number>(values: &mut [N], turns: &mut [u16])
    ensures { StacksCleared (arithmetic_on N.operations) values.old turns.old values.new turns.new }
{
    buffers::clear(values, N::zero());
    buffers::clear(turns, 0);
}

// A run that has finished has a result, in two halves; any other leaves it as it was.
pub fn write_result<N: Number>(
    end: Ended,
    first: &[N],
    counted: Counted,
    roles: &[u16],
    second: &[N],
    res: &mut [N],
)
    requires { ResultFits roles.now first.now second.now res.old }
    ensures { res.new
        ≡ result_at end (halves_of (arithmetic_on N.operations) first.now counted roles.now second.now) res.old }
{
    if let Ended::Finished = end {
        buffers::lay(first, counted, roles, second, res);
    }
}

// A table's run between empty stacks, from what its store holds: how it ended. What a run starts from and what its result is are the caller's.
pub fn run_table<N: Number>(
    program: Program,
    given: Given<N>,
    store: &mut [N],
    values: &mut [N],
    turns: &mut [u16],
    copied: &mut [N],
) -> Ended
    requires { Indexed program.table.now program.rows (length store.old) (length given.constants.now) }
    ensures { RunsTable (arithmetic_on N.operations) program.entry.table.now program.entry.rows program.entry.beyond.now program.entry.keeps
        given.entry.roles.now given.entry.constants.now given.entry.seeds.now
        (cells_of (arithmetic_on N.operations) store.old values.old turns.old copied.old)
        (cells_of (arithmetic_on N.operations) store.new values.new turns.new copied.new) result }
{
    clear_stacks(values, turns);
    let mut loops = [NO_LOOP; MAX_DEPTH];
    let ran = runner::run_rows(
        program,
        given,
        store,
        values,
        turns,
        copied,
        &mut loops,
        buffers::STEPS,
    );
    clear_stacks(values, turns);
    ran.ended
}

// The run of an adjoint table, from the start values to the result, in a store of zeros and with room for the copies.
fn run_in<N: Number>(
    program: Program,
    given: Given<N>,
    values: &mut [N],
    turns: &mut [u16],
    starts: &[N],
    store: &mut [N],
    copied: &mut [N],
    res: &mut [N],
) -> Reply
    requires indexed { Indexed program.table.now program.rows (length store.old) (length given.constants.now) }
    requires room { RunRoom (arithmetic_on N.operations) given.roles.now starts.now given.seeds.now store.old copied.old res.old }
    ensures { (sheet : Sheet) (buffer : List ℕ) → program.entry.keeps ≡ true
        → Ready (table_of sheet) sheet given.entry.roles.now given.entry.constants.now program.entry.table.now program.entry.rows program.entry.beyond.now
        → AdjointRanTo (arithmetic_on N.operations) sheet buffer starts.now given.entry.seeds.now values.old turns.old res.old
        result values.new turns.new res.new }
{
    buffers::copy(starts, store);
    let end = run_table(program, given, store, values, turns, copied);
    let roles = given.roles;
    let variables = roles.len();
    write_result(
        end,
        copied,
        Counted::Independents,
        roles,
        &store[variables..],
        res,
    );
    refusals::answer_end(end)
}

// The run of a sheet whose table has been written, with the table's jumps.
fn run_written<N: Number>(
    words: &[u16],
    plan: Plan,
    table: &[u16],
    beyond: &[u16; MAX_TABLE_ROWS],
    values: &mut [N],
    turns: &mut [u16],
    starts: &[N],
    seeds: &[N],
    res: &mut [N],
) -> Reply
    requires indexed { Indexed table.now plan.rows (table_variables plan.shape.variables) plan.shape.constants }
    requires room { SheetRoom words.now plan starts.now seeds.now res.old }
    ensures { (sheet : Sheet) (buffer : List ℕ) → TableInPlace (table_of sheet) words.now plan table.now beyond.now sheet buffer
        → AdjointRanTo (arithmetic_on N.operations) sheet buffer starts.now seeds.now values.old turns.old res.old
        result values.new turns.new res.new }
{
    let shape = plan.shape;
    let variables = shape.variables;
    let roles_end = 1 + variables;
    let first_constant = shape.first_constant;
    let constants_end = first_constant + shape.constants;
    let size = 2 * variables + 2;
    let store: &mut [N] = &mut [N::zero(); buffers::STORE];
    let copied: &mut [N] = &mut [N::zero(); MAX_VARIABLES];
    let program = Program {
        table,
        rows: plan.rows,
        beyond,
        keeps: true,
    };
    let given = Given {
        roles: &words[1..roles_end],
        constants: &words[first_constant..constants_end],
        seeds,
    };
    run_in(
        program,
        given,
        values,
        turns,
        starts,
        &mut store[..size],
        &mut copied[..variables],
        res,
    )
}

// "a run takes a sheet, never a bare table"
fn run_sheet<N: Number>(
    words: &[u16],
    table: &mut [u16],
    values: &mut [N],
    turns: &mut [u16],
    starts: &[N],
    seeds: &[N],
    res: &mut [N],
) -> Reply
    ensures { ran_of (arithmetic_on N.operations) result (lent_of (arithmetic_on N.operations) table.new values.new turns.new res.new)
        ≡ run (arithmetic_on N.operations) words.now starts.now seeds.now (lent_of (arithmetic_on N.operations) table.old
        values.old turns.old res.old) }
{
    // Three lists here and in the calls below, not a struct: who they are handed on to takes a part of them (the tangent's writer the marks alone, the plain
    // engine the marks and `goes`), and each is promised by itself (`MarksSaid`), so that a struct would be no plainer.
    let mut marks = [0u8; MAX_ROWS];
    let mut came = [0u16; MAX_ROWS];
    let mut goes = [0u16; MAX_ROWS];
    let rooms = Rooms {
        table: table.len(),
        values: values.len(),
        turns: turns.len(),
        starts: starts.len(),
        seeds: seeds.len(),
        result: res.len(),
    };
    let planned = table::plan_sheet(words, &mut marks, &mut came, &mut goes);
    let allowed = refusals::divisible::<N>(words, planned);
    match refusals::judge(allowed, rooms) {
        Err(answer) => answer,
        Ok(plan) => {
            if let Err(why) = refusals::all_admitted(starts, seeds) {
                return Reply::from(why);
            }
            let mut beyond = [0u16; MAX_TABLE_ROWS];
            writer::write_planned(words, plan, &marks, &came, &goes, table, &mut beyond);
            run_written(
                words, plan, table, &beyond, values, turns, starts, seeds, res,
            )
        }
    }
}

// In doubles: under its own name, by which README has it and C is to call it.
pub fn run_double(
    words: &[u16],
    table: &mut [u16],
    values: &mut [f64],
    turns: &mut [u16],
    starts: &[f64],
    seeds: &[f64],
    res: &mut [f64],
) -> Reply
    ensures { ran_of doubles result (lent_of doubles table.new values.new turns.new res.new)
        ≡ run doubles words.now starts.now seeds.now (lent_of doubles table.old
        values.old turns.old res.old) }
{
    run_sheet(words, table, values, turns, starts, seeds, res)
}

// In audit, by its own name for the same reason.
pub fn run_audit(
    words: &[u16],
    table: &mut [u16],
    values: &mut [u32],
    turns: &mut [u16],
    starts: &[u32],
    seeds: &[u32],
    res: &mut [u32],
) -> Reply
    ensures { ran_of residues result (lent_of residues table.new values.new turns.new res.new)
        ≡ run residues words.now starts.now seeds.now (lent_of residues table.old
        values.old turns.old res.old) }
{
    run_sheet(words, table, values, turns, starts, seeds, res)
}
