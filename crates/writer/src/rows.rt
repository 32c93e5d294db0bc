// One sheet row's rows in the table.
ghost use Rattle.std.specs.Prelude.{◌≡◌, ◌≤◌, [], ◌∷◌};
ghost use Rattle.sheet.specs.Inner.RowLines.{line_of_row};
ghost use Rattle.sheet.specs.Answers.{row_said};
ghost use Rattle.sheet.specs.Bounds.{limit};
ghost use Rattle.table.specs.Inner.MarkedRows.{row_with, row_if, SmallWords, scaled_rows, divisor_rows, divided_rows, part_rows, derivatives_of, assignment_back, Assigns, SaysPart, forward_of_line, loop_back, backward_of_line};
ghost use Rattle.writer.specs.Inner.RowsWritten.{HasRoom, Put};

use sheet::RowWords;
use sheet::kinds::Part;
use table::kinds;
use table::marks::bit;

// The table that rows go into, the place after the last one, and how many variables the sheet has.
#[derive(Drop)]
pub struct TableOut<'a> {
    pub table: &'a mut [u16],
    pub place: usize,
    pub variables: u16,
}

impl TableOut<'_> {
    // One row of the table.
    pub fn put(&mut self, kind: u16, d: u16, a: u16, b: u16)
        requires { HasRoom self.old (row_with kind d a b ∷ []) }
        ensures { Put self.old (row_with kind d a b ∷ []) self.new }
    {
        let place = self.place;
        let table = &mut *self.table;
        // Four stores, which become one of 8 bytes: by `copy_from_slice`, as tried, writing a table of products took four times as long.
        table[place] = kind;
        table[place + 1] = d;
        table[place + 2] = a;
        table[place + 3] = b;
        self.place = place + sheet::ROW_WORDS;
    }

    // The same, only if given.
    pub fn put_if(&mut self, given: bool, kind: u16, d: u16, a: u16, b: u16)
        requires { HasRoom self.old (row_if given (row_with kind d a b)) }
        ensures { Put self.old (row_if given (row_with kind d a b)) self.new }
    {
        if given {
            self.put(kind, d, a, b);
        }
    }

    // A product's part: u := operand × t, and u into the adjoint of the other operand, only if given.
    fn scaled(&mut self, given: bool, operand: u16, other: u16)
        requires room { HasRoom self.old (scaled_rows self.old.variables given operand other) }
        requires small { (self.old.variables ≤ limit.variables) × (other ≤ limit.turns) }
        ensures { Put self.old (scaled_rows self.old.variables given operand other) self.new }
    {
        let t = 2 * self.variables;
        let u = t + 1;
        let adjoint = self.variables + other;
        self.put_if(given, sheet::kinds::PRODUCT, u, operand, t);
        self.put_if(given, sheet::kinds::SUM, adjoint, adjoint, u);
    }

    // A quotient's part for the divisor: u := a × u, u := u / b, and u out of b̄, only if given.
    fn over_divisor(&mut self, given: bool, a: u16, b: u16)
        requires room { HasRoom self.old (divisor_rows self.old.variables given a b) }
        requires small { (self.old.variables ≤ limit.variables) × (b ≤ limit.turns) }
        ensures { Put self.old (divisor_rows self.old.variables given a b) self.new }
    {
        let u = 2 * self.variables + 1;
        let adjoint = self.variables + b;
        self.put_if(given, sheet::kinds::PRODUCT, u, a, u);
        self.put_if(given, sheet::kinds::QUOTIENT, u, u, b);
        self.put_if(given, sheet::kinds::DIFFERENCE, adjoint, adjoint, u);
    }

    // A quotient's parts: u := t / b for both, u into ā before the divisor's part overwrites it.
    fn divided(&mut self, first: bool, second: bool, a: u16, b: u16)
        requires room { HasRoom self.old (divided_rows self.old.variables first second a b) }
        requires small { (self.old.variables ≤ limit.variables) × ((a ≤ limit.turns) × (b ≤ limit.turns)) }
        ensures { Put self.old (divided_rows self.old.variables first second a b) self.new }
    {
        let t = 2 * self.variables;
        let u = t + 1;
        let adjoint = self.variables + a;
        self.put(sheet::kinds::QUOTIENT, u, t, b);
        self.put_if(first, sheet::kinds::SUM, adjoint, adjoint, u);
        self.over_divisor(second, a, b);
    }

    // An assignment's parts, for a first and b second, each only if it is varied: t or u into the adjoint of what it reads.
    fn parts(&mut self, row: RowWords, mark: u8)
        requires room { HasRoom self.old (part_rows self.old.variables (row_said row) mark) }
        requires small { SmallWords self.old.variables (row_said row) }
        requires assigns { Assigns row.kind }
        ensures { Put self.old (part_rows self.old.variables (row_said row) mark) self.new }
    {
        let t = 2 * self.variables;
        let to_a = self.variables + row.a;
        let to_b = self.variables + row.b;
        let first = bit(mark, sets::VARIED_A);
        let second = bit(mark, sets::VARIED_B);
        match row.kind {
            sheet::kinds::COPY => self.put_if(first, sheet::kinds::SUM, to_a, to_a, t),
            sheet::kinds::CONSTANT => {}
            sheet::kinds::NEGATION => self.put_if(first, sheet::kinds::DIFFERENCE, to_a, to_a, t),
            sheet::kinds::PRODUCT => {
                self.scaled(first, row.b, row.a);
                self.scaled(second, row.a, row.b);
            }
            sheet::kinds::QUOTIENT => self.divided(first, second, row.a, row.b),
            // A sum and a difference add into ā, and into b̄ do as they do themselves.
            _ => {
                self.put_if(first, sheet::kinds::SUM, to_a, to_a, t);
                self.put_if(second, row.kind, to_b, to_b, t);
            }
        }
    }

    // An assignment's derivative rows: d̄ := 0, and where the row is active t := d̄ before it and the parts after it.
    fn derivatives(&mut self, row: RowWords, mark: u8)
        requires room { HasRoom self.old (derivatives_of self.old.variables (row_said row) mark) }
        requires small { SmallWords self.old.variables (row_said row) }
        requires assigns { Assigns row.kind }
        ensures { Put self.old (derivatives_of self.old.variables (row_said row) mark) self.new }
    {
        let adjoint = self.variables + row.d;
        if !bit(mark, sets::ACTIVE) {
            return self.put(kinds::CLEAR, adjoint, 0, 0);
        }
        let t = 2 * self.variables;
        self.put(sheet::kinds::COPY, t, adjoint, 0);
        self.put(kinds::CLEAR, adjoint, 0, 0);
        self.parts(row, mark);
    }

    // An assignment's backward rows: take back d if it is saved, then its derivative rows.
    fn assignment_back(&mut self, row: RowWords, mark: u8)
        requires room { HasRoom self.old (assignment_back self.old.variables (row_said row) mark) }
        requires small { SmallWords self.old.variables (row_said row) }
        requires assigns { Assigns row.kind }
        ensures { Put self.old (assignment_back self.old.variables (row_said row) mark) self.new }
    {
        let saved = bit(mark, sets::SAVED);
        self.put_if(saved, kinds::TAKE_BACK, row.d, 0, 0);
        self.derivatives(row, mark);
    }

    // A sheet row's rows in the forward part: the row itself, after a save of d or, at a branch's end, of the turn.
    pub fn forward_row(&mut self, row: RowWords, part: Part, mark: u8)
        requires room { HasRoom self.old (forward_of_line mark (line_of_row (row_said row))) }
        requires part_said { SaysPart (row_said row) part }
        ensures { Put self.old (forward_of_line mark (line_of_row (row_said row))) self.new }
    {
        match part {
            Part::Assignment => {
                let saved = bit(mark, sets::SAVED);
                self.put_if(saved, kinds::SAVE, row.d, 0, 0);
                self.put(row.kind, row.d, row.a, row.b);
            }
            Part::If | Part::Repeat | Part::EndRepeat => {
                self.put(row.kind, row.d, row.a, row.b);
            }
            Part::Else => {
                self.put(kinds::SAVE_TURN, 0, 1, 0);
                self.put(row.kind, row.d, row.a, row.b);
            }
            Part::EndIf => {
                self.put(kinds::SAVE_TURN, 0, 0, 0);
                self.put(row.kind, row.d, row.a, row.b);
            }
        }
    }

    // A sheet row's rows in the backward part; turns are those of an "end repeat"'s "repeat".
    pub fn backward_row(&mut self, row: RowWords, part: Part, mark: u8, turns: u16)
        requires room { HasRoom self.old (backward_of_line self.old.variables mark turns (line_of_row (row_said row))) }
        requires part_said { SaysPart (row_said row) part }
        requires small { SmallWords self.old.variables (row_said row) }
        ensures { Put self.old (backward_of_line self.old.variables mark turns (line_of_row (row_said row))) self.new }
    {
        match part {
            Part::Assignment => self.assignment_back(row, mark),
            Part::If => self.put(sheet::kinds::ELSE, 0, 0, 0),
            Part::Else => self.put(sheet::kinds::END_IF, 0, 0, 0),
            Part::EndIf => self.put(kinds::ON_TURN, 0, 0, 0),
            Part::Repeat => self.put(sheet::kinds::END_REPEAT, 0, 0, 0),
            Part::EndRepeat => self.put(loop_kind(turns), 0, turns, 0),
        }
    }
}

// A loop's kind in the backward part: one that says no turns takes its count back.
fn loop_kind(turns: u16) -> u16
    ensures { row_with result 0 turns 0 ≡ loop_back turns }
{
    if turns == 0 {
        kinds::ON_COUNT
    } else {
        sheet::kinds::REPEAT
    }
}
