// The plain tangent engine (02 §1): straight from the sheet's words, each number with its rate, under the sheet's own sets. It makes no table.
// In reading order: rates, blocks, engine, cells.
#![tactic(auto)]

ghost use Rattle.std.specs.Prelude.{◌≡◌};
ghost use Rattle.number.specs.Doubles.{doubles};
ghost use Rattle.sheet.specs.Judging.{given};
ghost use Rattle.sheet.specs.Sheets.{Sheet};
ghost use Rattle.sheet.specs.Reading.{read};
ghost use Rattle.sets.specs.Rounds.{sets_of};
ghost use Rattle.plain.specs.Plain.{plain_by};
ghost use Rattle.plain.specs.Carries.{carry_of};
ghost use Rattle.plain.specs.Calls.{carried_to, plain};
ghost use Rattle.plain.specs.Inner.Engine.{Found, CarryRoom};

use run::refusals;
use sheet::{MAX_ROWS, Shape};
use table::Reply;

mod blocks;
mod cells;
mod engine;
mod rates;

// A number and its rate.
#[derive(Clone, Copy)]
pub struct Rated {
    pub value: f64,
    pub rate: f64,
}

// The engine on an accepted sheet, between what is lent and its result.
fn carry(
    words: &[u16],
    shape: Shape,
    marks: &[u8; MAX_ROWS],
    goes: &[u16; MAX_ROWS],
    starts: &[f64],
    rates: &[f64],
    res: &mut [f64],
) -> Reply
    requires found { Found words.now shape marks.now goes.now }
    requires room { CarryRoom shape.variables starts.now rates.now res.old }
    ensures { (sheet : Sheet) → read words.now ≡ given sheet → carry_of doubles result res.new
        ≡ carried_to doubles sheet res.old (plain_by doubles (sets_of sheet) sheet starts.now rates.now) }
{
    let roles_end = 1 + shape.variables;
    let start = cells::laid(&words[1..roles_end], starts, rates);
    match engine::run_rows(words, shape, marks, goes, start) {
        Ok(last) => {
            cells::write_out(last, &words[1..roles_end], res);
            Reply::done()
        }
        Err(at) => {
            let first = tangent::rows_before(words, shape, marks, at.row);
            Reply::refused(run::NOT_FINITE_RESULT, first + usize::from(at.after))
        }
    }
}

// Any words: the first refusal of 1 to 7, 10 and 11, a stop at the tangent table's row, or the values and the dependents' rates.
pub fn tangent_plain(words: &[u16], starts: &[f64], rates: &[f64], res: &mut [f64]) -> Reply
    ensures { carry_of doubles result res.new
        ≡ plain doubles words.now starts.now rates.now res.old }
{
    let mut marks = [0u8; MAX_ROWS];
    let mut came = [0u16; MAX_ROWS];
    let mut goes = [0u16; MAX_ROWS];
    let shape = match sets::mark(words, &mut marks, &mut came, &mut goes) {
        Ok((shape, _)) => shape,
        Err(why) => return Reply::from(why),
    };
    if let Err(why) = refusals::lengths_fit(shape.variables, starts.len(), rates.len(), res.len()) {
        return Reply::from(why);
    }
    if let Err(why) = refusals::all_finite(starts, rates) {
        return Reply::from(why);
    }
    carry(words, shape, &marks, &goes, starts, rates, res)
}
