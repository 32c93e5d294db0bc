// The turn stack's rows, which no arithmetic has a part in.
ghost use Rattle.std.specs.Prelude.{◌≡◌, eqb};
ghost use Rattle.table.specs.TableRows.{turn_word};
ghost use Rattle.machine.specs.Inner.Buffers.{InBoth, SavesTurn, TakesTurn};
ghost use Rattle.machine.specs.Inner.RowSteps.{PutAway, KeepsCount, CountThere};

use super::{Branch, Stuck};

const FIRST: u16 = 1;

const SECOND: u16 = 0;

// "1 takes the first branch".
pub fn is_first(word: u16) -> bool
    ensures { result ≡ eqb word 1 }
{
    word == FIRST
}

fn word_of(first: bool) -> u16
    ensures { result ≡ turn_word first }
{
    if first { FIRST } else { SECOND }
}

// A word onto the stack.
fn put_away(word: u16, turns: &mut [u16], height: usize) -> Result<usize, Stuck>
    ensures { PutAway word height turns.old turns.new result }
{
    if turns.len() <= height {
        return Err(Stuck);
    }
    turns[height] = word;
    Ok(height + 1)
}

// Kind 14.
pub fn save_turn(first: bool, turns: &mut [u16], height: usize) -> Result<usize, Stuck>
    ensures { InBoth (λ A. SavesTurn A first turns.old height turns.new result) }
{
    put_away(word_of(first), turns, height)
}

// What kind 19 does when its loop ends: an adjoint table's puts the turns done away, a tangent table's nothing.
pub fn keep_count(count: u16, keeps: bool, turns: &mut [u16], height: usize) -> Result<usize, Stuck>
    ensures { InBoth (λ A. KeepsCount A count keeps turns.old height turns.new result) }
{
    if keeps {
        return put_away(count, turns, height);
    }
    Ok(height)
}

// What kind 20 will take back.
pub fn count_there(turns: &[u16], height: usize) -> Result<(u16, usize), Stuck>
    ensures { CountThere turns.now height result }
{
    if height == 0 {
        return Err(Stuck);
    }
    let top = height - 1;
    if turns.len() <= top {
        return Err(Stuck);
    }
    Ok((turns[top], top))
}

// Kind 15. The place that is taken back is cleared.
pub fn test_turn(turns: &mut [u16], height: usize) -> Result<(Branch, usize), Stuck>
    ensures { InBoth (λ A. TakesTurn A turns.old height turns.new result) }
{
    if height == 0 {
        return Err(Stuck);
    }
    let top = height - 1;
    if turns.len() <= top {
        return Err(Stuck);
    }
    let turn = turns[top];
    turns[top] = 0;
    if is_first(turn) {
        Ok((Branch::First, top))
    } else {
        Ok((Branch::Second, top))
    }
}
