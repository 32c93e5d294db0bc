// The rows of blocks but for the comparisons, which no arithmetic has a part in. `next` is the place of the row after the one at hand.
ghost use Rattle.std.specs.Prelude.{◌≡◌, ◌-◌};
ghost use Rattle.sheet.specs.Answers.{row_said};
ghost use Rattle.machine.specs.Inner.Buffers.{InBoth};
ghost use Rattle.machine.specs.Inner.RowSteps.{JumpsTo, BranchesTo, TurnsTo, Pushes, Opens, Closes, Pends, EndsLoop, AsksLoop, AsksRow, OnCount, CrossesBy};

use super::turns::{count_there, keep_count, test_turn};
use super::{Branch, Ended, Loop, Pending, Place, Stuck};
use sheet::{MAX_DEPTH, RowNumber, RowWords, kinds, wide};

// From an "if" past its "else", from an "else" past its "end if", or from a loop's first row past its last.
fn jump(beyond: &[u16], at: RowNumber, next: Place) -> Result<Place, Ended>
    ensures { JumpsTo beyond.now at.0 next result }
{
    let row = at.0;
    if row < beyond.len() {
        let to = RowNumber(wide(beyond[row]));
        return Ok(next.moved(to));
    }
    Err(Ended::Stuck)
}

// Kind 7, from the branch that the comparison picks.
fn branch_to(branch: Branch, beyond: &[u16], at: RowNumber, next: Place) -> Result<Place, Ended>
    ensures { BranchesTo beyond.now at.0 next branch result }
{
    match branch {
        Branch::First => Ok(next),
        Branch::Second => jump(beyond, at, next),
    }
}

// Kind 15, from the branch that the turn picks.
fn turn_to(
    branched: Result<(Branch, usize), Stuck>,
    beyond: &[u16],
    at: RowNumber,
    next: Place,
) -> Result<Place, Ended>
    ensures { TurnsTo beyond.now at.0 next branched result }
{
    let (branch, height) = branched?;
    branch_to(branch, beyond, at, next.raised(next.values, height))
}

// One loop more.
fn push_loop(
    body: usize,
    note: usize,
    next: Place,
    loops: &mut [Loop; MAX_DEPTH],
) -> Result<Place, Ended>
    ensures { Pushes body note next loops.old loops.new result }
{
    let depth = next.depth;
    if MAX_DEPTH <= depth {
        return Err(Ended::Stuck);
    }
    loops[depth] = Loop { body, note };
    Ok(next.within(depth + 1))
}

// Kind 10, and kind 20 once its count is taken.
fn open_repeat(count: u16, next: Place, loops: &mut [Loop; MAX_DEPTH]) -> Result<Place, Ended>
    ensures { Opens count next loops.old loops.new result }
{
    if count == 0 {
        return Err(Ended::Stuck);
    }
    let body = next.at;
    let turns = wide(count) - 1;
    push_loop(body.0, 2 * turns, next, loops)
}

// Kind 11, whatever opens the loop.
fn close_turn(next: Place, loops: &mut [Loop; MAX_DEPTH]) -> Result<Place, Ended>
    ensures { Closes next loops.old loops.new result }
{
    let depth = next.depth;
    if depth == 0 {
        return Err(Ended::Stuck);
    }
    let top = depth - 1;
    if MAX_DEPTH <= top {
        return Err(Ended::Stuck);
    }
    let Loop { body, note } = loops[top];
    if note < 2 {
        return Ok(next.within(top));
    }
    loops[top].note = note - 2;
    Ok(next.moved(RowNumber(body)))
}

// A loop with a test is under way if it is the innermost open one: its row is asked again, and no other loop's next turn begins there.
fn pending(most: u16, at: RowNumber, depth: usize, loops: &[Loop; MAX_DEPTH]) -> Pending
    ensures { Pends most at.0 depth loops.now result }
{
    let all = wide(most);
    let first = Pending {
        left: all,
        note: 2 * all + 1,
        depth,
    };
    if depth == 0 {
        return first;
    }
    let top = depth - 1;
    if MAX_DEPTH <= top {
        return first;
    }
    let Loop { body, note } = loops[top];
    let asks = note % 2 == 1;
    if asks & (body == at.0) {
        return Pending {
            left: note / 2,
            note,
            depth: top,
        };
    }
    first
}

fn turns_done(most: u16, left: usize) -> u16
    ensures { result ≡ most - left }
{
    let all = wide(most);
    if all < left {
        return 0;
    }
    (all - left) as u16
}

// The end of a loop with a test after so many turns, `next` being among the loops around it.
fn end_loop(
    count: u16,
    keeps: bool,
    beyond: &[u16],
    at: RowNumber,
    next: Place,
    turns: &mut [u16],
) -> Result<Place, Ended>
    ensures { InBoth (λ A. EndsLoop A count keeps beyond.now at.0 next turns.old turns.new result) }
{
    let height = keep_count(count, keeps, turns, next.turns)?;
    jump(beyond, at, next.raised(next.values, height))
}

// Kind 19, from what its test says: "after d turns the loop ends without a further test".
fn ask_loop(
    branch: Branch,
    most: u16,
    keeps: bool,
    beyond: &[u16],
    at: RowNumber,
    next: Place,
    turns: &mut [u16],
    loops: &mut [Loop; MAX_DEPTH],
) -> Result<Place, Ended>
    ensures { InBoth (λ A. AsksLoop A branch most keeps beyond.now at.0 next turns.old loops.old turns.new loops.new result) }
{
    let now = pending(most, at, next.depth, loops);
    let left = now.left;
    let around = next.within(now.depth);
    let done = turns_done(most, left);
    if left == 0 {
        return end_loop(done, keeps, beyond, at, around, turns);
    }
    match branch {
        Branch::First => push_loop(at.0, now.note, around, loops),
        Branch::Second => end_loop(done, keeps, beyond, at, around, turns),
    }
}

// A row that asks whether a < b, from what it is told: kind 7 or kind 19. One function for both, so that the runner compares in one place.
pub fn ask_row(
    branch: Branch,
    row: RowWords,
    keeps: bool,
    beyond: &[u16],
    at: RowNumber,
    next: Place,
    turns: &mut [u16],
    loops: &mut [Loop; MAX_DEPTH],
) -> Result<Place, Ended>
    ensures { InBoth (λ A. AsksRow A branch (row_said row) keeps beyond.now at.0 next turns.old loops.old turns.new loops.new result) }
{
    let most = row.d;
    if row.kind == kinds::IF {
        return branch_to(branch, beyond, at, next);
    }
    ask_loop(branch, most, keeps, beyond, at, next, turns, loops)
}

// Kind 20. A ninth loop leaves all as it stands, so the count is looked at before it is taken; the place that is taken back is cleared.
fn on_count(
    beyond: &[u16],
    at: RowNumber,
    next: Place,
    turns: &mut [u16],
    loops: &mut [Loop; MAX_DEPTH],
) -> Result<Place, Ended>
    ensures { InBoth (λ A. OnCount A beyond.now at.0 next turns.old loops.old turns.new loops.new result) }
{
    let (count, top) = count_there(turns, next.turns)?;
    if count == 0 {
        turns[top] = 0;
        return branch_to(Branch::Second, beyond, at, next.raised(next.values, top));
    }
    if MAX_DEPTH <= next.depth {
        return Err(Ended::Stuck);
    }
    turns[top] = 0;
    open_repeat(count, next.raised(next.values, top), loops)
}

// Kinds 8 to 11, 15 and 20.
pub fn cross(
    row: RowWords,
    beyond: &[u16],
    at: RowNumber,
    next: Place,
    turns: &mut [u16],
    loops: &mut [Loop; MAX_DEPTH],
) -> Result<Place, Ended>
    ensures { InBoth (λ A. CrossesBy A (row_said row) beyond.now at.0 next turns.old loops.old turns.new loops.new result) }
{
    let kind = row.kind;
    if kind == kinds::ELSE {
        return jump(beyond, at, next);
    }
    if kind == kinds::END_IF {
        return Ok(next);
    }
    if kind == kinds::REPEAT {
        return open_repeat(row.a, next, loops);
    }
    if kind == kinds::END_REPEAT {
        return close_turn(next, loops);
    }
    if kind == table::kinds::ON_TURN {
        return turn_to(test_turn(turns, next.turns), beyond, at, next);
    }
    if kind == table::kinds::ON_COUNT {
        return on_count(beyond, at, next, turns, loops);
    }
    Err(Ended::Stuck)
}
