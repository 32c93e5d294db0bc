// One sheet row's rows in the tangent table.
ghost use Rattle.std.specs.Prelude.{[], ◌∷◌};
ghost use Rattle.sheet.specs.Inner.RowLines.{line_of_row};
ghost use Rattle.sheet.specs.Answers.{row_said};
ghost use Rattle.table.specs.Inner.MarkedRows.{SmallWords, Assigns, SaysPart};
ghost use Rattle.writer.specs.Inner.RowsWritten.{HasRoom, Put};
ghost use Rattle.tangent.specs.Inner.TangentRowsWritten.{combined_rate, term_rates, second_rates, quotient_rates, active_rates_of, rates_of, tangent_of_line};

use sheet::kinds::Part;
use sheet::{RowWords, kinds};
use table::marks::bit;
use writer::rows::TableOut;

// The rate of a sum or a difference: the same operation on both rates, or a copy of ȧ, or of ḃ what is said of it alone.
fn combined_rate(out: &mut TableOut, row: RowWords, first: bool, second: bool, alone: u16)
    requires room { HasRoom out.old (combined_rate out.old.variables (row_said row) first second alone ∷ []) }
    requires small { SmallWords out.old.variables (row_said row) }
    ensures { Put out.old (combined_rate out.old.variables (row_said row) first second alone ∷ []) out.new }
{
    let d_rate = out.variables + row.d;
    let a_rate = out.variables + row.a;
    let b_rate = out.variables + row.b;
    if first {
        if second {
            return out.put(row.kind, d_rate, a_rate, b_rate);
        }
        return out.put(kinds::COPY, d_rate, a_rate, 0);
    }
    out.put(alone, d_rate, b_rate, 0)
}

// The rate of a product: u := b × ȧ, t := a × ḃ and ḋ := u + t, or the one term straight into ḋ.
fn term_rates(out: &mut TableOut, row: RowWords, first: bool, second: bool)
    requires room { HasRoom out.old (term_rates out.old.variables (row_said row) first second) }
    requires small { SmallWords out.old.variables (row_said row) }
    ensures { Put out.old (term_rates out.old.variables (row_said row) first second) out.new }
{
    let t = 2 * out.variables;
    let u = t + 1;
    let d_rate = out.variables + row.d;
    let a_rate = out.variables + row.a;
    let b_rate = out.variables + row.b;
    if first {
        if second {
            out.put(kinds::PRODUCT, u, row.b, a_rate);
            out.put(kinds::PRODUCT, t, row.a, b_rate);
            return out.put(kinds::SUM, d_rate, u, t);
        }
        return out.put(kinds::PRODUCT, d_rate, row.b, a_rate);
    }
    out.put(kinds::PRODUCT, d_rate, row.a, b_rate)
}

// The second term of a quotient's rate: t := a × ḃ, t := t / b, and once more.
fn second_rates(out: &mut TableOut, row: RowWords)
    requires room { HasRoom out.old (second_rates out.old.variables (row_said row)) }
    requires small { SmallWords out.old.variables (row_said row) }
    ensures { Put out.old (second_rates out.old.variables (row_said row)) out.new }
{
    let t = 2 * out.variables;
    let b_rate = out.variables + row.b;
    out.put(kinds::PRODUCT, t, row.a, b_rate);
    out.put(kinds::QUOTIENT, t, t, row.b);
    out.put(kinds::QUOTIENT, t, t, row.b)
}

// The rate of a quotient: u := ȧ / b, the second term into t and ḋ := u − t; or ȧ / b straight into ḋ; or the second term and ḋ := −t.
fn quotient_rates(out: &mut TableOut, row: RowWords, first: bool, second: bool)
    requires room { HasRoom out.old (quotient_rates out.old.variables (row_said row) first second) }
    requires small { SmallWords out.old.variables (row_said row) }
    ensures { Put out.old (quotient_rates out.old.variables (row_said row) first second) out.new }
{
    let t = 2 * out.variables;
    let u = t + 1;
    let d_rate = out.variables + row.d;
    let a_rate = out.variables + row.a;
    if first {
        if second {
            out.put(kinds::QUOTIENT, u, a_rate, row.b);
            second_rates(out, row);
            return out.put(kinds::DIFFERENCE, d_rate, u, t);
        }
        return out.put(kinds::QUOTIENT, d_rate, a_rate, row.b);
    }
    second_rates(out, row);
    out.put(kinds::NEGATION, d_rate, t, 0)
}

// An active assignment's rate rows: ḋ from the operands that are varied before it.
fn active_rates(out: &mut TableOut, row: RowWords, mark: u8)
    requires room { HasRoom out.old (active_rates_of out.old.variables (row_said row) mark) }
    requires small { SmallWords out.old.variables (row_said row) }
    requires assigns { Assigns row.kind }
    ensures { Put out.old (active_rates_of out.old.variables (row_said row) mark) out.new }
{
    let first = bit(mark, sets::VARIED_A);
    let second = bit(mark, sets::VARIED_B);
    let d_rate = out.variables + row.d;
    match row.kind {
        kinds::CONSTANT => out.put(table::kinds::CLEAR, d_rate, 0, 0),
        kinds::SUM => combined_rate(out, row, first, second, kinds::COPY),
        kinds::DIFFERENCE => combined_rate(out, row, first, second, kinds::NEGATION),
        kinds::PRODUCT => term_rates(out, row, first, second),
        kinds::QUOTIENT => quotient_rates(out, row, first, second),
        // A copy and a negation do to the rate as they do themselves.
        _ => out.put(row.kind, d_rate, out.variables + row.a, 0),
    }
}

// An assignment's rate rows: where it is inactive, ḋ := 0.
fn rates(out: &mut TableOut, row: RowWords, mark: u8)
    requires room { HasRoom out.old (rates_of out.old.variables (row_said row) mark) }
    requires small { SmallWords out.old.variables (row_said row) }
    requires assigns { Assigns row.kind }
    ensures { Put out.old (rates_of out.old.variables (row_said row) mark) out.new }
{
    if bit(mark, sets::ACTIVE) {
        return active_rates(out, row, mark);
    }
    out.put(table::kinds::CLEAR, out.variables + row.d, 0, 0);
}

// A sheet row's rows: an assignment's rate rows before it, and the row itself.
pub fn tangent_row(out: &mut TableOut, row: RowWords, part: Part, mark: u8)
    requires room { HasRoom out.old (tangent_of_line out.old.variables mark (line_of_row (row_said row))) }
    requires part_said { SaysPart (row_said row) part }
    requires small { SmallWords out.old.variables (row_said row) }
    ensures { Put out.old (tangent_of_line out.old.variables mark (line_of_row (row_said row))) out.new }
{
    if kinds::assigns(part) {
        rates(out, row, mark);
        return out.put(row.kind, row.d, row.a, row.b);
    }
    out.put(row.kind, row.d, row.a, row.b)
}
