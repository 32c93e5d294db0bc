// The reader: any words in; out comes a checked sheet's shape, or the first refusal with its place.
// In reading order: sections, rows, blocks.
#![tactic(auto)]

ghost use Rattle.std.specs.Prelude.{◌≡◌, ◌+◌, ◌*◌, ◌≤◌, ◌<◌, length, get_or};
ghost use Rattle.sheet.specs.Inner.Words.{word_values};
ghost use Rattle.sheet.specs.Bounds.{limit};
ghost use Rattle.sheet.specs.Refusals.{number_of, place_of};
ghost use Rattle.sheet.specs.Rows.{is_independent, is_dependent};
ghost use Rattle.sheet.specs.Sheets.{row_at};
ghost use Rattle.sheet.specs.Answers.{refusal_of, said, shape_read, row_said};
ghost use Rattle.sheet.specs.Inner.Steps.{finish_of};

mod blocks;
pub mod kinds;
mod rows;
mod sections;

// Every bound on a sheet, once. They are the fields of `limit` in specs/Bounds.antt.
const MIN_VARIABLES: usize = 1;

pub const MAX_VARIABLES: usize = 32;

const MAX_ROLE: u16 = 3;

const MAX_CONSTANTS: usize = 64;

pub const MAX_ROWS: usize = 512;

pub const ROW_WORDS: usize = 4;

const MAX_TURNS: usize = 1000;

pub const MAX_DEPTH: usize = 8;

pub const MAX_LONGEST: usize = 4096;

// A variable's number and a row's number, both from 0: neither can stand for the other.
#[derive(Clone, Copy)]
pub struct Variable(pub usize);

#[derive(Clone, Copy)]
pub struct RowNumber(pub usize);

// Refusals 1 to 7 with their places, 7 at place 0; and 13, which the reader itself never gives.
#[derive(Clone, Copy)]
pub enum No {
    WordsEnd(usize),
    WordsLeft(usize),
    CountBeyond(usize),
    RoleAbove(usize),
    BadRow(usize),
    BadBlock(usize),
    TooLong,
    HoldsQuotient(usize),
}

// An accepted sheet: V, K, N, where the constants and the rows start (the roles start at word 1), and W.
#[derive(Clone, Copy)]
pub struct Shape {
    pub variables: usize,
    pub constants: usize,
    pub rows: usize,
    pub first_constant: usize,
    pub first_row: usize,
    pub longest: usize,
}

// The roles besides 0, a parameter. They stay words: an enum would only be taken apart again into the two questions below.
const INDEPENDENT: u16 = 1;

const DEPENDENT: u16 = 2;

const BOTH: u16 = 3;

pub fn is_independent(role: u16) -> bool
    ensures { result ≡ is_independent role }
{
    (role == INDEPENDENT) | (role == BOTH)
}

pub fn is_dependent(role: u16) -> bool
    ensures { result ≡ is_dependent role }
{
    (role == DEPENDENT) | (role == BOTH)
}

#[derive(Clone, Copy)]
pub struct RowWords {
    pub kind: u16,
    pub d: u16,
    pub a: u16,
    pub b: u16,
}

#[derive(Clone, Copy)]
struct Counts {
    pub variables: usize,
    pub constants: usize,
    pub rows: usize,
}

// What a row of a kind must be, in a sheet with so many variables and constants: each word from the least that it may be to below what it may not
// be, and what the row is to the blocks.
#[derive(Clone, Copy)]
struct Rule {
    pub least_d: u16,
    pub d: u16,
    pub least_a: u16,
    pub a: u16,
    pub b: u16,
    pub part: kinds::Part,
}

// The block that is being read: the second branch knows the first one's W, a loop its turns.
#[derive(Clone, Copy)]
enum Open {
    Outermost,
    First,
    Second(u16),
    Turns(u16),
}

// A block and the W of what was read in it so far, kept at one above the bound once it is beyond it.
#[derive(Clone, Copy)]
struct Level {
    pub block: Open,
    pub longest: u16,
}

// What a row that fits does to the blocks.
#[derive(Clone, Copy)]
enum Step {
    Stay(Level),
    Enter(Level),
    Leave(Level),
}

// A word as a number, with its bound.
pub fn wide(x: u16) -> usize
    ensures { (result ≡ x) × (result < word_values) }
{
    usize::from(x)
}

// What is judged after the rows: words that are left, then W.
#[tactic(auto, unfolding(crate::specs::Inner::Steps::finish_of))]
fn finish(shape: Shape, after: usize, length: usize) -> Result<Shape, No>
    ensures { result ≡ finish_of shape after length }
{
    if after < length {
        return Err(No::WordsLeft(after));
    }
    if MAX_LONGEST < shape.longest {
        return Err(No::TooLong);
    }
    Ok(shape)
}

// Any words: the shape of the sheet that they are, or the first refusal.
pub fn read_sheet(words: &[u16]) -> Result<Shape, No>
    ensures { said result ≡ shape_read words.now }
{
    let counts = sections::counts_read(words)?;
    let first_row = 3 + counts.variables + counts.constants;
    let longest = wide(blocks::rows_read(words, first_row, counts)?);
    let after = first_row + counts.rows * ROW_WORDS;
    let shape = Shape {
        variables: counts.variables,
        constants: counts.constants,
        rows: counts.rows,
        first_constant: 2 + counts.variables,
        first_row,
        longest,
    };
    finish(shape, after, words.len())
}

#[tactic(auto, unfolding(crate::specs::Refusals::number_of))]
pub fn number_of(why: No) -> u16
    ensures { result ≡ number_of (refusal_of why) }
{
    match why {
        No::WordsEnd(_) => 1,
        No::WordsLeft(_) => 2,
        No::CountBeyond(_) => 3,
        No::RoleAbove(_) => 4,
        No::BadRow(_) => 5,
        No::BadBlock(_) => 6,
        No::TooLong => 7,
        No::HoldsQuotient(_) => 13,
    }
}

#[tactic(auto, unfolding(crate::specs::Refusals::place_of))]
pub fn place_of(why: No) -> usize
    ensures { result ≡ place_of (refusal_of why) }
{
    match why {
        No::WordsEnd(place)
        | No::WordsLeft(place)
        | No::CountBeyond(place)
        | No::RoleAbove(place)
        | No::BadRow(place)
        | No::BadBlock(place)
        | No::HoldsQuotient(place) => place,
        No::TooLong => 0,
    }
}

// The word at a place, and 0 beyond the last.
pub fn word_at(words: &[u16], place: usize) -> u16
    ensures { result ≡ get_or words.now place 0 }
{
    words.get(place).copied().unwrap_or(0)
}

// The row at a place.
#[tactic(auto, unfolding(crate::specs::Sheets::row_at))]
fn row_at(words: &[u16], place: usize) -> RowWords
    requires { place + limit.row_words ≤ length words.now }
    ensures { row_said result ≡ row_at words.now place }
{
    RowWords {
        kind: words[place],
        d: words[place + 1],
        a: words[place + 2],
        b: words[place + 3],
    }
}

// A row, by its number among the rows that start at `first`.
pub fn row_of(words: &[u16], first: usize, row: RowNumber) -> RowWords
    requires { first + (row.0 + 1) * limit.row_words ≤ length words.now }
    ensures { row_said result ≡ row_at words.now (first + row.0 * limit.row_words) }
{
    row_at(words, first + row.0 * ROW_WORDS)
}
