// The kinds of a sheet's rows: each by its number, and one fixed table that says what a row of each kind is.
ghost use Rattle.std.specs.Prelude.{◌≡◌};
ghost use Rattle.sheet.specs.Answers.{row_said};
ghost use Rattle.sheet.specs.Inner.Kinds.{all_forms, form_for, names_variable, assigns, turns_in};

use super::{RowWords, wide};

// Numbers and no enum: they are words of sheets and of tables, where others stand among them, and places in FORMS.
pub const COPY: u16 = 1;

pub const CONSTANT: u16 = 2;

pub const SUM: u16 = 3;

pub const DIFFERENCE: u16 = 4;

pub const PRODUCT: u16 = 5;

pub const NEGATION: u16 = 6;

pub const IF: u16 = 7;

pub const ELSE: u16 = 8;

pub const END_IF: u16 = 9;

pub const REPEAT: u16 = 10;

pub const END_REPEAT: u16 = 11;

// 12 to 17 are a table's own (crate table).
pub const QUOTIENT: u16 = 18;

pub const WHILE: u16 = 19;

// As many numbers as `kinds` in specs/Rows.antt has.
pub const LAST: usize = 19;

// What a word of a row may be.
#[derive(Clone, Copy, PartialEq, Eq)]
pub enum Slot {
    Variable,
    Constant,
    Turns,
    Unused,
    Nothing,
}

// What a row is to the blocks. Every loop is a repeat to them: which one, its kind tells.
#[derive(Clone, Copy, PartialEq, Eq)]
pub enum Part {
    Assignment,
    If,
    Else,
    EndIf,
    Repeat,
    EndRepeat,
}

// What the three words after the kind are, d, a and b, and what the row is to the blocks.
#[derive(Clone, Copy)]
pub struct Form(pub Slot, pub Slot, pub Slot, pub Part);

// What a number that is no kind's is taken for: no word fits it, its words name nothing, and it opens and closes no block.
const NO_FORM: Form = Form(
    Slot::Nothing,
    Slot::Nothing,
    Slot::Nothing,
    Part::Assignment,
);

// One fixed table, for every layer: for each kind, in its own place, which of its three words name a variable, what the others are, and what its
// rows are to the blocks.
const FORMS: [Form; LAST + 1] = [
    NO_FORM,
    Form(
        Slot::Variable,
        Slot::Variable,
        Slot::Unused,
        Part::Assignment,
    ),
    Form(
        Slot::Variable,
        Slot::Constant,
        Slot::Unused,
        Part::Assignment,
    ),
    Form(
        Slot::Variable,
        Slot::Variable,
        Slot::Variable,
        Part::Assignment,
    ),
    Form(
        Slot::Variable,
        Slot::Variable,
        Slot::Variable,
        Part::Assignment,
    ),
    Form(
        Slot::Variable,
        Slot::Variable,
        Slot::Variable,
        Part::Assignment,
    ),
    Form(
        Slot::Variable,
        Slot::Variable,
        Slot::Unused,
        Part::Assignment,
    ),
    Form(Slot::Unused, Slot::Variable, Slot::Variable, Part::If),
    Form(Slot::Unused, Slot::Unused, Slot::Unused, Part::Else),
    Form(Slot::Unused, Slot::Unused, Slot::Unused, Part::EndIf),
    Form(Slot::Unused, Slot::Turns, Slot::Unused, Part::Repeat),
    Form(Slot::Unused, Slot::Unused, Slot::Unused, Part::EndRepeat),
    NO_FORM,
    NO_FORM,
    NO_FORM,
    NO_FORM,
    NO_FORM,
    NO_FORM,
    Form(
        Slot::Variable,
        Slot::Variable,
        Slot::Variable,
        Part::Assignment,
    ),
    Form(Slot::Turns, Slot::Variable, Slot::Variable, Part::Repeat),
];

// The table, to be taken once a pass: a constant array that a loop looks up is made anew at each turn.
pub fn forms() -> [Form; LAST + 1]
    ensures { result ≡ all_forms }
{
    FORMS
}

// The look-up.
pub fn form_in(forms: [Form; LAST + 1], kind: u16) -> Form
    requires { forms ≡ all_forms }
    ensures { result ≡ form_for kind }
{
    forms.get(wide(kind)).copied().unwrap_or(NO_FORM)
}

pub fn names_variable(slot: Slot) -> bool
    ensures { result ≡ names_variable slot }
{
    slot == Slot::Variable
}

pub fn assigns(part: Part) -> bool
    ensures { result ≡ assigns part }
{
    part == Part::Assignment
}

// The most turns of the loop that a row opens.
pub fn turns_of(row: RowWords) -> u16
    ensures { result ≡ turns_in (row_said row) }
{
    if row.kind == WHILE { row.d } else { row.a }
}
