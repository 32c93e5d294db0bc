// The adjoint table: what it is (specs/) and how large it gets. Any words in; out come a sheet's sizes, or the first refusal. The plan is for
// the layers above: the writer, and the runs.
#![tactic(auto)]

ghost use Rattle.std.specs.Prelude.{◌≡◌};
ghost use Rattle.sheet.specs.Judging.{given};
ghost use Rattle.sheet.specs.Sheets.{Sheet};
ghost use Rattle.sheet.specs.Reading.{read};
ghost use Rattle.sheet.specs.Refusals.{number_of, place_of};
ghost use Rattle.sheet.specs.Answers.{refusal_of, shape_read};
ghost use Rattle.sets.specs.Calls.{lent, MarksSaid};
ghost use Rattle.table.specs.Sizes.{checked_said};
ghost use Rattle.table.specs.Calls.{check};
ghost use Rattle.table.specs.Inner.Plans.{SheetNoted, PlanMade, PlanSays};

mod count;
pub mod kinds;
pub mod marks;
mod needs;
mod quotients;
mod sizes;

pub use quotients::undivided;
use sizes::Sizes;

// "Hence R is at most": for each of a sheet's rows these forward and backward, the parts among the latter, and row 17.
const MAX_FORWARD: usize = 2;

const MAX_PARTS: usize = 5;

const MAX_BACKWARD: usize = 3 + MAX_PARTS;

pub const MAX_ROWS_EACH: usize = MAX_FORWARD + MAX_BACKWARD;

pub const MAX_TABLE_ROWS: usize = MAX_ROWS_EACH * sheet::MAX_ROWS + 1;

// The numbers of an answer besides those of the reader's refusals.
pub const DONE: u16 = 0;

pub const SMALL_TABLE: u16 = 8;

// What 01 has each call answer: a refusal's number and place, or 0 and 0.
#[derive(Clone, Copy)]
pub struct Reply {
    pub number: u16,
    pub place: usize,
}

impl Reply {
    pub fn done() -> Self
        ensures { (result.number ≡ 0) × (result.place ≡ 0) }
    {
        Reply::refused(DONE, 0)
    }

    pub fn refused(number: u16, place: usize) -> Self
        ensures { (result.number ≡ number) × (result.place ≡ place) }
    {
        Reply { number, place }
    }
}

impl From<sheet::No> for Reply {
    ghost from_gives = { λ why reply. (reply.number ≡ number_of (refusal_of why)) × (reply.place ≡ place_of (refusal_of why)) };

    fn from(why: sheet::No) -> Reply {
        Reply::refused(sheet::number_of(why), sheet::place_of(why))
    }
}

// The same with W, R, S and T, all 0 when refused.
#[derive(Clone, Copy)]
pub struct Checked {
    pub number: u16,
    pub place: usize,
    pub longest: usize,
    pub rows: usize,
    pub values: usize,
    pub turns: usize,
}

// R, S and T besides the sheet's shape.
#[derive(Clone, Copy)]
pub struct Plan {
    pub shape: sheet::Shape,
    pub rows: usize,
    pub values: usize,
    pub turns: usize,
}

// The plan of an accepted sheet, from its rows' marks. The partners are there for what the plan says of them.
fn plan_of(
    words: &[u16],
    shape: sheet::Shape,
    marks: &[u8; sheet::MAX_ROWS],
    came: &[u16; sheet::MAX_ROWS],
    goes: &[u16; sheet::MAX_ROWS],
) -> Plan
    requires accepted { shape_read words.now ≡ given shape }
    requires noted { ((sheet : Sheet) → read words.now ≡ given sheet → SheetNoted sheet marks.now came.now goes.now) }
    ensures { PlanMade words.now result marks.now came.now goes.now }
{
    let Sizes { rows, need } = sizes::sizes_of(words, shape, marks);
    Plan {
        shape,
        rows,
        values: need.values,
        turns: need.turns,
    }
}

// Any words: the first refusal of 1 to 7, or the plan of the sheet that they are, with every row's marks and partners.
pub fn plan_sheet(
    words: &[u16],
    marks: &mut [u8; sheet::MAX_ROWS],
    came: &mut [u16; sheet::MAX_ROWS],
    goes: &mut [u16; sheet::MAX_ROWS],
) -> Result<Plan, sheet::No>
    ensures { PlanSays words.now marks.new came.new goes.new result
        × MarksSaid (read words.now) (lent marks.old came.old goes.old)
        (lent marks.new came.new goes.new) }
{
    let (shape, _) = sets::mark(words, marks, came, goes)?;
    Ok(plan_of(words, shape, marks, came, goes))
}

// Any words: the first refusal of 1 to 7, or the sizes of the sheet that they are.
pub fn check(words: &[u16]) -> Checked
    ensures { checked_said result ≡ check words.now }
{
    let mut marks = [0u8; sheet::MAX_ROWS];
    let mut came = [0u16; sheet::MAX_ROWS];
    let mut goes = [0u16; sheet::MAX_ROWS];
    match plan_sheet(words, &mut marks, &mut came, &mut goes) {
        Ok(plan) => Checked {
            number: DONE,
            place: 0,
            longest: plan.shape.longest,
            rows: plan.rows,
            values: plan.values,
            turns: plan.turns,
        },
        Err(why) => Checked {
            number: sheet::number_of(why),
            place: sheet::place_of(why),
            longest: 0,
            rows: 0,
            values: 0,
            turns: 0,
        },
    }
}
