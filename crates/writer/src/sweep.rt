// The two parts of the table, each in one pass over the sheet's rows.
ghost use Rattle.std.specs.Prelude.{◌≡◌, true, set, length, get_or, ◌+◌, ◌*◌, ◌≤◌, ◌<◌};
ghost use Rattle.sheet.specs.Bounds.{limit};
ghost use Rattle.sheet.specs.Sheets.{row_at};
ghost use Rattle.sheet.specs.Answers.{row_said};
ghost use Rattle.table.specs.RowBounds.{most_table_rows};
ghost use Rattle.writer.specs.Inner.RowsWritten.{RowRoom, HasRoom, leads_on, step_back, turns_said_by, turns_back, Walkable, backward_all, whole_rows};
ghost use Rattle.writer.specs.Inner.TableHanded.{handed_by, forward_of, Readable};
ghost use Rattle.writer.specs.Inner.JumpsNoted.{noting, Numbered, WroteNoted, PutNoted};

use super::rows::TableOut;
use super::{jumps, partners};
use sheet::kinds::Part;
use sheet::{RowNumber, RowWords, Shape};
use table::{MAX_TABLE_ROWS, kinds};

// What a table is written from: a planned sheet's words and where they lie, every row's marks and partners.
#[derive(Clone, Copy)]
pub struct Handed<'a> {
    pub words: &'a [u16],
    pub shape: Shape,
    pub marks: &'a [u8],
    pub came: &'a [u16],
    pub goes: &'a [u16],
}

impl Handed<'_> {
    fn row(self, row: RowNumber) -> RowWords
        requires { self.shape.first_row + (row.0 + 1) * limit.row_words ≤ length self.words.now }
        ensures { row_said result ≡ row_at self.entry.words.now (self.entry.shape.first_row + row.0 * limit.row_words) }
    {
        sheet::row_of(self.words, self.shape.first_row, row)
    }

    // Where the backward walk goes from a row: to the end of what comes next there.
    fn step_back(self, row: RowNumber, part: Part) -> usize
        requires { (row.0 < length self.came.now) × (row.0 < length self.goes.now)
            × (leads_on part ≡ true → get_or self.goes.now row.0 0 < length self.goes.now) }
        ensures { result ≡ step_back self.entry.came.now self.entry.goes.now row.0 part }
    {
        match part {
            Part::Assignment | Part::Repeat | Part::EndRepeat => row.0,
            Part::If => partners::if_end(self.goes, row).0,
            Part::Else | Part::EndIf => partners::partner(self.came, row).0,
        }
    }

    // The turns of the loop that an "end repeat" closes; 0 for any other row.
    fn turns_back(self, row: RowNumber, part: Part) -> u16
        requires { (row.0 < length self.goes.now)
            × (leads_on part ≡ true
            → self.shape.first_row + (get_or self.goes.now row.0 0 + 1) * limit.row_words ≤ length self.words.now) }
        ensures { result ≡ turns_back self.entry.words.now self.entry.shape.first_row self.entry.goes.now row.0 part }
    {
        let Part::EndRepeat = part else {
            return 0;
        };
        turns_said(self.row(partners::partner(self.goes, row)))
    }
}

// Where the writer has come to: the place after the last row, and the innermost open branch's or loop's row.
#[derive(Clone, Copy)]
pub struct SweptTo {
    pub place: usize,
    pub top: u16,
}

// The forward part: each row's rows in the sheet's order.
fn forward_part(
    given: Handed,
    out: &mut TableOut,
    from: u16,
    beyond: &mut [u16; MAX_TABLE_ROWS],
) -> u16
    requires room { HasRoom out.old (forward_of given) }
    requires numbered { Numbered out.old.place (forward_of given) }
    requires readable { Readable given }
    ensures { PutNoted out.old (forward_of given.entry) out.new (noting from beyond.old) (noting result beyond.new) }
{
    let shape = given.shape;
    let forms = sheet::kinds::forms();
    let mut top = from;
    for p in 0..shape.rows {
        let row = given.row(RowNumber(p));
        let kind = sheet::wide(row.kind);
        let part = forms[kind].3;
        out.forward_row(row, part, given.marks[p]);
        top = jumps::note(jumps::forward(part), out.place, top, beyond);
    }
    top
}

// The turns that the backward part says of a loop: one with a test takes its count back, and says none.
fn turns_said(opened: RowWords) -> u16
    ensures { result ≡ turns_said_by (row_said opened) }
{
    if opened.kind == sheet::kinds::WHILE {
        0
    } else {
        opened.a
    }
}

// The backward part: each row's rows once, from the last row on, each "if" with its branches in their places and reversed inside.
fn backward_part(
    given: Handed,
    out: &mut TableOut,
    from: u16,
    beyond: &mut [u16; MAX_TABLE_ROWS],
) -> u16
    requires room { HasRoom out.old (backward_all (handed_by given)) }
    requires numbered { Numbered out.old.place (backward_all (handed_by given)) }
    requires readable { Readable given }
    requires walkable { Walkable (handed_by given) }
    requires variables { out.old.variables ≡ given.shape.variables }
    ensures { PutNoted out.old (backward_all (handed_by given.entry)) out.new (noting from beyond.old) (noting result beyond.new) }
{
    let shape = given.shape;
    let forms = sheet::kinds::forms();
    let mut top = from;
    let mut until = shape.rows;
    for _ in 0..shape.rows {
        let q = until - 1;
        let row = given.row(RowNumber(q));
        let kind = sheet::wide(row.kind);
        let part = forms[kind].3;
        let turns = given.turns_back(RowNumber(q), part);
        out.backward_row(row, part, given.marks[q], turns);
        top = jumps::note(jumps::backward(part), out.place, top, beyond);
        until = given.step_back(RowNumber(q), part);
    }
    top
}

// The table's rows: the forward part, row 17 and the backward part. Answers as each part does.
fn both_parts(given: Handed, out: &mut TableOut, beyond: &mut [u16; MAX_TABLE_ROWS]) -> u16
    requires room { HasRoom out.old (whole_rows (handed_by given)) }
    requires numbered { Numbered out.old.place (whole_rows (handed_by given)) }
    requires readable { Readable given }
    requires walkable { Walkable (handed_by given) }
    requires variables { out.old.variables ≡ given.shape.variables }
    ensures { PutNoted out.old (whole_rows (handed_by given.entry)) out.new (noting 0 beyond.old) (noting result beyond.new) }
{
    let top = forward_part(given, out, 0, beyond);
    out.put(kinds::TURN_ROUND, 0, 0, 0);
    backward_part(given, out, top, beyond)
}

// The whole table: the row count and the rows.
pub fn write_table(
    given: Handed,
    table_rows: usize,
    table: &mut [u16],
    beyond: &mut [u16; MAX_TABLE_ROWS],
) -> SweptTo
    requires room { RowRoom table.old 1 (whole_rows (handed_by given)) }
    requires numbered { Numbered 1 (whole_rows (handed_by given)) }
    requires readable { Readable given }
    requires walkable { Walkable (handed_by given) }
    requires rows_few { table_rows ≤ most_table_rows }
    ensures { WroteNoted (set table.old 0 table_rows) 1 (whole_rows (handed_by given.entry))
        table.new result.place (noting 0 beyond.old) (noting result.top beyond.new) }
{
    table[0] = table_rows as u16;
    let mut out = TableOut {
        table,
        place: 1,
        variables: given.shape.variables as u16,
    };
    let top = both_parts(given, &mut out, beyond);
    SweptTo {
        place: out.place,
        top,
    }
}
