// One assignment on the pairs that it reads: its rate, worked out first, and its value.
ghost use Rattle.std.specs.Prelude.{◌≡◌, ◌+◌, ◌-◌, ◌<◌, ◌≤◌, length};
ghost use Rattle.number.specs.Answers.{outcome_of, why_not_finite};
ghost use Rattle.sheet.specs.Answers.{row_said};
ghost use Rattle.sheet.specs.Inner.RowLines.{line_of_row};
ghost use Rattle.sheet.specs.declared.kinds.Part.TheVariants.{Assignment};
ghost use Rattle.table.specs.Inner.MarkedRows.{known_by, SaysPart};
ghost use Rattle.tangent.specs.Inner.TangentPlans.{line_count};
ghost use Rattle.plain.specs.Inner.Working.{rate_said, worked_said, after, sum_rate, difference_rate, two_terms, product_rate, second_over, both_over, second_alone, quotient_rate, active_rate_of, rate_on, value_on, operand_on, worked_on};

use super::Rated;
use number::{NotFinite, Number, double};
use sheet::kinds::Part;
use sheet::{RowWords, kinds};
use table::marks;
use tangent::count;

// An operation's answer where so many of the row's table rows stand before it.
fn after(rows: u8, answer: Result<f64, NotFinite>) -> Result<f64, u8>
    ensures { rate_said result ≡ after rows (outcome_of why_not_finite answer) }
{
    answer.map_err(|_| rows)
}

// "the same operation on the rates, or copy or negation of the one varied"
fn sum_rate(vary_a: bool, vary_b: bool, a: f64, b: f64) -> Result<f64, NotFinite>
    ensures { outcome_of why_not_finite result ≡ sum_rate vary_a vary_b a b }
{
    match (vary_a, vary_b) {
        (true, true) => a.sum(b),
        (true, false) => Ok(a),
        (false, _) => Ok(b),
    }
}

fn difference_rate(vary_a: bool, vary_b: bool, a: f64, b: f64) -> Result<f64, NotFinite>
    ensures { outcome_of why_not_finite result ≡ difference_rate vary_a vary_b a b }
{
    match (vary_a, vary_b) {
        (true, true) => a.difference(b),
        (true, false) => Ok(a),
        (false, _) => b.negation(),
    }
}

// "u := b × ȧ, t := a × ḃ, ḋ := u + t"
fn two_terms(a: Rated, b: Rated) -> Result<f64, u8>
    ensures { rate_said result ≡ two_terms a b }
{
    let u = after(0, b.value.product(a.rate))?;
    let t = after(1, a.value.product(b.rate))?;
    after(2, u.sum(t))
}

// "or the one term alone"
fn product_rate(vary_a: bool, vary_b: bool, a: Rated, b: Rated) -> Result<f64, u8>
    ensures { rate_said result ≡ product_rate vary_a vary_b a b }
{
    match (vary_a, vary_b) {
        (true, true) => two_terms(a, b),
        (true, false) => after(0, b.value.product(a.rate)),
        (false, _) => after(0, a.value.product(b.rate)),
    }
}

// A quotient's second term: "t := a × ḃ, t := t / b, t := t / b". So many of the row's table rows stand before it.
fn second_over(rows: u8, a: Rated, b: Rated) -> Result<f64, u8>
    requires { rows ≤ 1 }
    ensures { rate_said result ≡ second_over rows a b }
{
    let scaled = after(rows, a.value.product(b.rate))?;
    let once = after(rows + 1, double::quotient(scaled, b.value))?;
    after(rows + 2, double::quotient(once, b.value))
}

// "u := ȧ / b, .. ḋ := u − t"
fn both_over(a: Rated, b: Rated) -> Result<f64, u8>
    ensures { rate_said result ≡ both_over a b }
{
    let u = after(0, double::quotient(a.rate, b.value))?;
    let t = second_over(1, a, b)?;
    after(4, u.difference(t))
}

// "the second alone the t rows, then ḋ := −t"
fn second_alone(a: Rated, b: Rated) -> Result<f64, u8>
    ensures { rate_said result ≡ second_alone a b }
{
    let t = second_over(0, a, b)?;
    after(3, t.negation())
}

fn quotient_rate(vary_a: bool, vary_b: bool, a: Rated, b: Rated) -> Result<f64, u8>
    ensures { rate_said result ≡ quotient_rate vary_a vary_b a b }
{
    match (vary_a, vary_b) {
        (true, true) => both_over(a, b),
        (true, false) => after(0, double::quotient(a.rate, b.value)),
        (false, _) => second_alone(a, b),
    }
}

fn active_rate(kind: u16, vary_a: bool, vary_b: bool, a: Rated, b: Rated) -> Result<f64, u8>
    ensures { rate_said result ≡ active_rate_of kind vary_a vary_b a b }
{
    match kind {
        kinds::SUM => after(0, sum_rate(vary_a, vary_b, a.rate, b.rate)),
        kinds::DIFFERENCE => after(0, difference_rate(vary_a, vary_b, a.rate, b.rate)),
        kinds::PRODUCT => product_rate(vary_a, vary_b, a, b),
        kinds::NEGATION => after(0, a.rate.negation()),
        kinds::QUOTIENT => quotient_rate(vary_a, vary_b, a, b),
        _ => Ok(a.rate),
    }
}

// "An inactive assignment's .. sets ḋ to 0."
fn rate_of(kind: u16, mark: u8, a: Rated, b: Rated) -> Result<f64, u8>
    ensures { rate_said result ≡ rate_on kind (known_by mark) a b }
{
    let vary_a = marks::bit(mark, sets::VARIED_A);
    let vary_b = marks::bit(mark, sets::VARIED_B);
    if marks::bit(mark, sets::ACTIVE) {
        active_rate(kind, vary_a, vary_b, a, b)
    } else {
        Ok(f64::zero())
    }
}

fn value_of(kind: u16, a: f64, b: f64) -> Result<f64, NotFinite>
    ensures { outcome_of why_not_finite result ≡ value_on kind a b }
{
    match kind {
        kinds::SUM => a.sum(b),
        kinds::DIFFERENCE => a.difference(b),
        kinds::PRODUCT => a.product(b),
        kinds::NEGATION => a.negation(),
        kinds::QUOTIENT => double::quotient(a, b),
        _ => Ok(a),
    }
}

fn work_out(kind: u16, mark: u8, rate_rows: u8, a: Rated, b: Rated) -> Result<Rated, u8>
    ensures { worked_said result ≡ worked_on kind (known_by mark) rate_rows a b }
{
    let rate = rate_of(kind, mark, a, b)?;
    let value = after(rate_rows, value_of(kind, a.value, b.value))?;
    Ok(Rated { value, rate })
}

// What an assignment reads first: a variable's pair, or a constant, whose rate is 0.
fn operand(words: &[u16], first_constant: usize, row: RowWords, a: Rated) -> Rated
    requires { row.kind ≡ 2 → first_constant + row.a < length words.now }
    ensures { result ≡ operand_on words.now first_constant row.kind row.a a }
{
    if row.kind != kinds::CONSTANT {
        return a;
    }
    let place = first_constant + sheet::wide(row.a);
    Rated {
        value: f64::constant(words[place]),
        rate: f64::zero(),
    }
}

// The pair that an assignment sets, from those that its words name.
pub fn assigned(
    words: &[u16],
    first_constant: usize,
    row: RowWords,
    mark: u8,
    a: Rated,
    b: Rated,
) -> Result<Rated, u8>
    requires constant_in { (row.kind ≡ 2 → first_constant + row.a < length words.now) }
    requires part_said { SaysPart (row_said row) Assignment }
    ensures { worked_said result ≡ worked_on row.kind (known_by mark) (line_count (known_by mark) (line_of_row (row_said row)) - 1)
        (operand_on words.now first_constant row.kind row.a a) b }
{
    let over = count::rows_over(row, Part::Assignment, mark);
    let first = operand(words, first_constant, row, a);
    work_out(row.kind, mark, (over - 1) as u8, first, b)
}
