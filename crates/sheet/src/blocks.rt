// The rows into blocks: what each row does to the blocks that are open, known by their W alone, and W of all rows.
ghost use Rattle.std.specs.Prelude.{◌≡◌, ◌+◌, ◌*◌, ◌≤◌, ◌^◌, [], length};
ghost use Rattle.sheet.specs.Bounds.{limit};
ghost use Rattle.sheet.specs.Sheets.{rows_at};
ghost use Rattle.sheet.specs.Inner.Steps.{saturated, counted, enter_of, split_of, if_end_of, repeat_end_of, step_of};
ghost use Rattle.sheet.specs.Inner.Steps.{body_said, after_rows_of, body_run};

use super::kinds::Part;
use super::{
    Counts, Level, MAX_DEPTH, MAX_LONGEST, No, Open, ROW_WORDS, Step, kinds, row_at, rows, wide,
};

const OUTERMOST: Level = Level {
    block: Open::Outermost,
    longest: 0,
};

// W, or one above its bound: eight nested repeats of 1000 go beyond any integer.
#[tactic(auto, unfolding(crate::specs::Inner::Steps::saturated))]
fn capped(longest: usize) -> u16
    ensures { result ≡ saturated longest }
{
    longest.min(MAX_LONGEST + 1) as u16
}

// "if" and a loop: a ninth level is refused.
#[tactic(auto, unfolding(crate::specs::Inner::Steps::enter_of))]
fn enter(depth: usize, block: Open) -> Option<Step>
    ensures { result ≡ enter_of depth block }
{
    if depth < MAX_DEPTH {
        return Some(Step::Enter(Level { block, longest: 0 }));
    }
    None
}

impl Level {
    // A level with more read in it.
    fn counted(self, more: usize) -> Level
        requires { more ≤ 2 ^ 33 }
        ensures { result ≡ counted self more }
    {
        Level {
            block: self.block,
            longest: capped(wide(self.longest) + more),
        }
    }

    // "else": only in a first branch.
    #[tactic(auto, using(crate::proofs::BlocksApart::not_first), unfolding(crate::specs::Inner::Steps::split_of))]
    fn split(self) -> Option<Step>
        ensures { result ≡ split_of self.block self.longest }
    {
        let Open::First = self.block else {
            return None;
        };
        Some(Step::Stay(Level {
            block: Open::Second(self.longest),
            longest: 0,
        }))
    }

    // "end if": only in a second branch; the block counts 1 + the larger branch.
    #[tactic(auto, using(crate::proofs::BlocksApart::not_second), unfolding(crate::specs::Inner::Steps::if_end_of))]
    fn end_if(self, outer: Level) -> Option<Step>
        ensures { result ≡ if_end_of self.block self.longest outer }
    {
        let Open::Second(first) = self.block else {
            return None;
        };
        let run = 1 + wide(first.max(self.longest));
        Some(Step::Leave(outer.counted(run)))
    }

    // "end repeat": only in a loop; the block counts 1 + turns × (1 + its body).
    #[tactic(auto, using(crate::proofs::BlocksApart::not_repeat), unfolding(crate::specs::Inner::Steps::repeat_end_of))]
    fn end_repeat(self, outer: Level) -> Option<Step>
        ensures { result ≡ repeat_end_of self.block self.longest outer }
    {
        let Open::Turns(turns) = self.block else {
            return None;
        };
        let run = 1 + wide(turns) * (1 + wide(self.longest));
        Some(Step::Leave(outer.counted(run)))
    }
}

// What a row does to the block that is being read, `depth` levels deep, and to the one outside it; none where the block isn't the one for it.
#[tactic(auto, unfolding(crate::specs::Inner::Steps::step_of))]
fn follow(part: Part, turns: u16, depth: usize, inner: Level, outer: Level) -> Option<Step>
    ensures { result ≡ step_of part turns depth inner outer }
{
    match part {
        Part::Assignment => Some(Step::Stay(inner.counted(1))),
        Part::If => enter(depth, Open::First),
        Part::Else => inner.split(),
        Part::EndIf => inner.end_if(outer),
        Part::Repeat => enter(depth, Open::Turns(turns)),
        Part::EndRepeat => inner.end_repeat(outer),
    }
}

// After the rows: W, unless a block was never closed.
#[tactic(auto, unfolding(crate::specs::Inner::Steps::after_rows_of))]
fn after_rows(depth: usize, longest: u16, place: usize) -> Result<u16, No>
    ensures { result ≡ after_rows_of depth longest place }
{
    if depth == 0 {
        return Ok(longest);
    }
    Err(No::BadBlock(place))
}

// The rows, each judged as it is followed: the W of what they are. Entry n of the levels, from 1 on, is the level outside the block n deep,
// as it was when that block was opened: a stack of fixed size with its depth beside it, since a library call uses no heap. It is pushed and popped
// at one place each, so that methods for it would be three contracts for three lines.
pub fn rows_read(words: &[u16], first: usize, counts: Counts) -> Result<u16, No>
    requires { (first + counts.rows * limit.row_words ≤ length words.now)
        × (counts.variables ≤ limit.variables) × (counts.constants ≤ limit.constants) }
    ensures { body_said result ≡ body_run counts.variables counts.constants (rows_at words.now first counts.rows) first [] [] }
{
    let named = rows::Named {
        variables: counts.variables as u16,
        constants: counts.constants as u16,
    };
    let rules = named.rules();
    let mut levels = [OUTERMOST; MAX_DEPTH + 1];
    let mut depth: usize = 0;
    let mut inner = OUTERMOST;
    for number in 0..counts.rows {
        let place = first + number * ROW_WORDS;
        let row = row_at(words, place);
        let kind = wide(row.kind);
        if kinds::LAST < kind {
            return Err(No::BadRow(place));
        }
        let rule = rules[kind];
        if !rows::row_fits(rule, row) {
            return Err(No::BadRow(place));
        }
        if rule.part == Part::Assignment {
            inner = inner.counted(1);
            continue;
        }
        let turns = kinds::turns_of(row);
        let Some(step) = follow(rule.part, turns, depth, inner, levels[depth]) else {
            return Err(No::BadBlock(place));
        };
        match step {
            Step::Stay(level) => inner = level,
            Step::Enter(level) => {
                depth += 1;
                levels[depth] = inner;
                inner = level;
            }
            Step::Leave(level) => {
                depth -= 1;
                inner = level;
            }
        }
    }
    after_rows(depth, inner.longest, first + counts.rows * ROW_WORDS)
}
