// The fields of a line, and the groups of numbers that slashes part them into.
ghost use Rattle.std.specs.Iterator.{YieldsFirstRef, item_count};
ghost use Rattle.std.specs.Prelude.{length, option_map, ◌↔◌, ◌≡◌, ◌≤◌, IfOk, IsOk};
ghost use Rattle.std.specs.Result.{result_ok};
ghost use Rattle.text.specs.Lines.{Taken, fields, fields_left, group as group_of, is_slash, starts_empty, without_empty, written_group};

use super::numbers::Number;
use std::error::Error;
use std::fmt;

const SPACE: u8 = b' ';

pub const MAX_LINE: usize = 65_535;

// No line has more numbers: each takes a byte at least, and a space before it.
pub const MAX_FIELDS: usize = (MAX_LINE + 1) / 2;

// What a line is that is no request: there is one answer to all of them.
#[derive(Clone, Copy, Debug, PartialEq, Eq)]
pub struct BadLine;

impl fmt::Display for BadLine {
    fn fmt<W: fmt::Write>(&self, f: &mut fmt::Formatter<W>) -> fmt::Result {
        write!(f, "bad line")
    }
}

impl Error for BadLine {}

// What a group of numbers ends with.
#[derive(Clone, Copy, PartialEq, Eq)]
pub enum End {
    Slash,
    Line,
}

// What is left of a line: a field begins after each space, also at the very end of the line. Past its last field there is nothing.
#[derive(Clone, Copy)]
pub struct Fields<'a> {
    rest: Option<&'a [u8]>,
}

impl<'a> Iterator for Fields<'a> {
    type Item = &'a [u8];

    ghost next_gives = { YieldsFirstRef fields_left };

    ghost remaining = { item_count fields_left };

    fn next(&mut self) -> Option<&'a [u8]> {
        let rest = self.rest?;
        match rest.iter().position(|byte| *byte == SPACE) {
            Some(end) => {
                self.rest = Some(&rest[end + 1..]);
                Some(&rest[..end])
            }
            None => {
                self.rest = None;
                Some(rest)
            }
        }
    }
}

// Where the first field of any line ends, also of one that is too long to be taken.
pub fn verb_end(line: &[u8]) -> usize
    ensures { result ≤ length line.now }
{
    line.iter()
        .position(|byte| *byte == SPACE)
        .unwrap_or(line.len())
}

// A slash alone.
fn ends_group(field: &[u8]) -> bool
    ensures { result ≡ is_slash field.now }
{
    matches!(field, b"/")
}

impl<'a> Fields<'a> {
    pub fn of(line: &'a [u8]) -> Result<Fields<'a>, BadLine>
        ensures bound { IsOk result ↔ Taken line.now }
        ensures all { IfOk result (λ it. fields_left it ≡ fields line.now) }
    {
        if MAX_LINE < line.len() {
            return Err(BadLine);
        }
        Ok(Fields { rest: Some(line) })
    }

    // The numbers up to the next slash or the line's end, which must be the end that is asked for. Past `into` there is no room.
    pub fn numbers<'n, T: Number>(
        &mut self,
        end: End,
        into: &'n mut [T],
    ) -> Result<&'n [T], BadLine>
        ensures { option_map (λ xs. (xs.now, fields_left self.new)) (result_ok result)
            ≡ group_of T.said end (length into.old) (fields_left self.old) }
    {
        let mut count = 0;
        let mut found = End::Line;
        // Not a `for`: of the fields that one over `&mut *self` leaves, a proof learns nothing.
        while let Some(field) = self.next() {
            if ends_group(field) {
                found = End::Slash;
                break;
            }
            if count == into.len() {
                return Err(BadLine);
            }
            // By index: of a place that `get_mut(..).ok_or(..)?` lends, a proof learns nothing of what is written there.
            into[count] = T::read(field)?;
            count += 1;
        }
        if found == end {
            Ok(&into[..count])
        } else {
            Err(BadLine)
        }
    }

    // Whether the next field is an empty one, which then is passed.
    fn passes_empty(&mut self) -> bool
        ensures first { result ≡ starts_empty (fields_left self.old) }
        ensures left { fields_left self.new ≡ without_empty (fields_left self.old) }
    {
        let mut after = *self;
        let empty = matches!(after.next(), Some([]));
        if empty {
            *self = after;
        }
        empty
    }

    // A group that has no number is written as nothing, or as one empty field: behind that there is room for none.
    pub fn group<'n, T: Number>(&mut self, end: End, into: &'n mut [T]) -> Result<&'n [T], BadLine>
        ensures { option_map (λ xs. (xs.now, fields_left self.new)) (result_ok result)
            ≡ written_group T.said end (length into.old) (fields_left self.old) }
    {
        let room = if self.passes_empty() { 0 } else { into.len() };
        self.numbers(end, &mut into[..room])
    }
}
