// The tangent table in one pass over the sheet's rows; and in another how many rows it has, before it is written.
ghost use Rattle.std.specs.Prelude.{◌≡◌, set, ◌*◌, ◌≤◌};
ghost use Rattle.sheet.specs.Bounds.{limit};
ghost use Rattle.table.specs.RowBounds.{most_table_rows};
ghost use Rattle.table.specs.Inner.MarkedRows.{RowsReadable};
ghost use Rattle.writer.specs.Inner.RowsWritten.{RowRoom, HasRoom};
ghost use Rattle.writer.specs.Inner.JumpsNoted.{noting, Numbered, PutNoted};
ghost use Rattle.tangent.specs.Inner.TangentPlans.{most_line_count, table_rows_before};
ghost use Rattle.tangent.specs.Inner.TangentRowsWritten.{tangent_all, WordsSmall, AllNoted};

use super::{count, rows};
use sheet::{RowNumber, Shape};
use table::{MAX_TABLE_ROWS, Plan};
use writer::jumps;
use writer::rows::TableOut;

// How many rows the tangent table has before those of a sheet's row: the number of that row's first one.
pub fn rows_before(words: &[u16], shape: Shape, marks: &[u8], row: RowNumber) -> usize
    requires readable { RowsReadable words.now shape marks.now }
    requires row_in { row.0 ≤ shape.rows }
    ensures { (result ≡ table_rows_before words.now shape.first_row marks.now row.0) × (result ≤ most_line_count * limit.rows) }
{
    let forms = sheet::kinds::forms();
    let mut rows: usize = 0;
    for p in 0..row.0 {
        let said = sheet::row_of(words, shape.first_row, RowNumber(p));
        let kind = sheet::wide(said.kind);
        rows += count::rows_over(said, forms[kind].3, marks[p]);
    }
    rows
}

// Each row's rows in the sheet's order. Answers the innermost open branch's or loop's row.
fn write_rows(
    words: &[u16],
    shape: Shape,
    marks: &[u8],
    out: &mut TableOut,
    beyond: &mut [u16; MAX_TABLE_ROWS],
) -> u16
    requires room { HasRoom out.old (tangent_all words.now shape marks.now) }
    requires numbered { Numbered out.old.place (tangent_all words.now shape marks.now) }
    requires readable { RowsReadable words.now shape marks.now }
    requires small { WordsSmall words.now shape }
    requires variables { out.old.variables ≡ shape.variables }
    ensures { PutNoted out.old (tangent_all words.now shape marks.now) out.new (noting 0 beyond.old) (noting result beyond.new) }
{
    let forms = sheet::kinds::forms();
    let mut top = 0;
    for p in 0..shape.rows {
        let row = sheet::row_of(words, shape.first_row, RowNumber(p));
        let kind = sheet::wide(row.kind);
        let part = forms[kind].3;
        rows::tangent_row(out, row, part, marks[p]);
        top = jumps::note(jumps::forward(part), out.place, top, beyond);
    }
    top
}

// The whole table: the row count and the rows.
pub fn write_table(
    words: &[u16],
    plan: Plan,
    marks: &[u8],
    table: &mut [u16],
    beyond: &mut [u16; MAX_TABLE_ROWS],
)
    requires room { RowRoom table.old 1 (tangent_all words.now plan.shape marks.now) }
    requires numbered { Numbered 1 (tangent_all words.now plan.shape marks.now) }
    requires readable { RowsReadable words.now plan.shape marks.now }
    requires small { WordsSmall words.now plan.shape }
    requires rows_few { plan.rows ≤ most_table_rows }
    ensures { AllNoted (set table.old 0 plan.rows) (tangent_all words.now plan.shape marks.now)
        table.new beyond.old beyond.new }
{
    table[0] = plan.rows as u16;
    let mut out = TableOut {
        table,
        place: 1,
        variables: plan.shape.variables as u16,
    };
    write_rows(words, plan.shape, marks, &mut out, beyond);
}
