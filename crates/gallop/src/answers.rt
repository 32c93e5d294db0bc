// Answer lines, each put together in a buffer.
ghost use Rattle.gallop.specs.declared.answers.TheConstants.{MAX_ANSWER};
ghost use Rattle.std.specs.Prelude.{◌≤◌};

use std::fmt;
use std::fmt::{Display, Write};
use table::Reply;
use text::fields::BadLine;
use text::numbers::Cell;

// Room for the longest answer, the longest table: a word takes six bytes at most, number, place and end not more than 32.
const MAX_ANSWER: usize = 32 + 6 * (1 + sheet::ROW_WORDS * table::MAX_TABLE_ROWS);

#[derive(Drop)]
pub struct Answer {
    bytes: [u8; MAX_ANSWER],
    used: usize,
    ghost within: { used ≤ MAX_ANSWER },
}

// What is beyond the room is cut off: no answer is so long.
impl fmt::Write for Answer {
    fn write_str(&mut self, text: &str) -> fmt::Result {
        let count = text.len().min(MAX_ANSWER - self.used);
        let end = self.used + count;
        let bytes = &mut self.bytes;
        bytes[self.used..end].copy_from_slice(&text.as_bytes()[..count]);
        self.used = end;
        Ok(())
    }
}

impl Answer {
    pub fn new() -> Answer {
        Answer {
            bytes: [0; MAX_ANSWER],
            used: 0,
        }
    }

    pub fn bytes(&self) -> &[u8] {
        &self.bytes[..self.used]
    }

    // An answer takes whatever it is given, so that there is no error to pass on.
    pub fn put<D: Display + Drop>(&mut self, shown: D) {
        let _ = self.write(shown);
    }

    // Number and place, the start of every answer but one.
    pub fn begin(&mut self, reply: Reply) {
        self.used = 0;
        let number = reply.number;
        let place = reply.place;
        self.put(format_args!("{number} {place}"));
    }

    pub fn put_cells<T: Cell>(&mut self, cells: &[T]) {
        self.put(" /");
        for cell in cells {
            self.put(" ");
            let _ = cell.write(self);
        }
    }

    pub fn end(&mut self, kept: bool) {
        self.put(if kept { " kept\n" } else { " BROKEN\n" });
    }

    pub fn refuse(&mut self, why: BadLine) {
        self.used = 0;
        self.put(format_args!("{why}\n"));
    }
}
