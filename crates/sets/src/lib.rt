// The sets: any words in; `mark` reads them, finds an accepted sheet's three least sets at every point, marks every row and hands up two of the sets.
// In reading order: masks, rows, operations, transfers, partners, marks, analyses, equations, walk.
#![tactic(auto)]

ghost use Rattle.std.specs.Prelude.{◌≡◌, ◌≤◌, ◌<◌, length};
ghost use Rattle.sheet.specs.Judging.{given};
ghost use Rattle.sheet.specs.Sheets.{Sheet};
ghost use Rattle.sheet.specs.Reading.{read};
ghost use Rattle.sets.specs.Calls.{lent, SheetMarks, MarksSaid, ends_at, ends_of, marking_said, marking_read};
ghost use Rattle.sets.specs.Rounds.{set_at};
ghost use Rattle.sets.specs.Inner.RowEquations.{AllReadable, line_in};
ghost use Rattle.sets.specs.Inner.Laid.{Laid, ClearRoom, AllMarked, EndsFound};
ghost use Rattle.sets.specs.Inner.Masks.{mask_bits};
ghost use Rattle.sets.specs.Inner.PartnerPass.{PartnersFound};

mod analyses;
mod equations;
mod marks;
mod masks;
mod operations;
mod partners;
mod rows;
mod transfers;
mod walk;

use analyses::{Required, Useful, Varied};
use partners::Partners;

// The bits of a row's mark: whether a is varied before it, whether b is, whether the row is active, whether it is recorded.
pub const VARIED_A: u8 = 1;

pub const VARIED_B: u8 = 2;

pub const ACTIVE: u8 = 4;

pub const SAVED: u8 = 8;

// An accepted sheet's words: where its rows start among them, how many there are, and over how many variables. Each row can be read, and a mask has a bit
// for each variable.
#[derive(Clone, Copy)]
struct LaidSheet<'a> {
    pub words: &'a [u16],
    pub first: usize,
    pub rows: usize,
    pub variables: usize,
    ghost readable: { AllReadable words.now first rows },
    ghost small: { variables ≤ mask_bits },
    ghost roles: { variables < length words.now },
}

// The variables useful before the first row, and those varied after the last.
#[derive(Clone, Copy)]
pub struct Ends {
    pub useful_first: u64,
    pub varied_last: u64,
}

fn ends_of(varied: &[u64], useful: &[u64], rows: usize) -> Ends
    requires { (rows < length varied.now) × (0 < length useful.now) }
    ensures { result ≡ ends_at (set_at varied.now) (set_at useful.now) rows }
{
    Ends {
        useful_first: useful[0],
        varied_last: varied[rows],
    }
}

// Marks every row of an accepted sheet. The three lists of sets come empty, as fresh arrays are.
fn settle_and_mark(
    laid: LaidSheet,
    came: &mut [u16],
    goes: &mut [u16],
    varied: &mut [u64],
    useful: &mut [u64],
    required: &mut [u64],
    marks: &mut [u8],
) -> Ends
    requires { Laid laid.words.now laid.variables laid.first laid.rows
        × ClearRoom laid.rows (length came.old) (length goes.old) varied.old useful.old required.old (length marks.old) }
    ensures { AllMarked laid.entry.words.now laid.entry.rows
        varied.new useful.new required.new marks.old marks.new
        × PartnersFound (line_in laid.entry.words.now laid.entry.first) laid.entry.rows
        came.old goes.old came.new goes.new
        × EndsFound laid.entry.words.now result }
{
    partners::find_partners(laid, came, goes);
    let onward = Partners {
        taken: came,
        back: goes,
    };
    let backward = Partners {
        taken: goes,
        back: came,
    };
    walk::settle(Varied, laid, onward, varied, marks);
    walk::settle(Useful, laid, backward, useful, marks);
    let by_both = Required { varied, useful };
    walk::settle(by_both, laid, onward, required, marks);
    ends_of(varied, useful, laid.rows)
}

// Every row's marks and every block row's partners of an accepted sheet. Of the sets themselves the answer's two are kept.
fn mark_accepted(
    words: &[u16],
    shape: sheet::Shape,
    marks: &mut [u8; sheet::MAX_ROWS],
    came: &mut [u16; sheet::MAX_ROWS],
    goes: &mut [u16; sheet::MAX_ROWS],
) -> Ends
    requires { Laid words.now shape.variables shape.first_row shape.rows }
    ensures { (sheet : Sheet) → read words.now ≡ given sheet
        → SheetMarks sheet (lent marks.old came.old goes.old)
        (lent marks.new came.new goes.new) × (result ≡ ends_of sheet) }
{
    let mut varied = [0u64; sheet::MAX_ROWS + 1];
    let mut useful = [0u64; sheet::MAX_ROWS + 1];
    let mut required = [0u64; sheet::MAX_ROWS + 1];
    let points = shape.rows + 1;
    let laid = LaidSheet {
        words,
        first: shape.first_row,
        rows: shape.rows,
        variables: shape.variables,
    };
    settle_and_mark(
        laid,
        came,
        goes,
        &mut varied[..points],
        &mut useful[..points],
        &mut required[..points],
        marks,
    )
}

// Any words: the reader's answer, and of an accepted sheet the sets at its two ends. Its rows are marked and its block rows' partners found.
// Refused words leave every lent place as it was.
pub fn mark(
    words: &[u16],
    marks: &mut [u8; sheet::MAX_ROWS],
    came: &mut [u16; sheet::MAX_ROWS],
    goes: &mut [u16; sheet::MAX_ROWS],
) -> Result<(sheet::Shape, Ends), sheet::No>
    ensures { (marking_said result ≡ marking_read words.now)
        × MarksSaid (read words.now) (lent marks.old came.old goes.old)
        (lent marks.new came.new goes.new) }
{
    let shape = sheet::read_sheet(words)?;
    let ends = mark_accepted(words, shape, marks, came, goes);
    Ok((shape, ends))
}
