// The lines of standard input, through a buffer of what was read and not yet taken.
use std::io;
use std::io::{Read, Stdin};
use std::ops::Range;
use text::fields::MAX_LINE;

// One byte more than a line may have, so that a longer one is seen to be longer.
pub const LINE_ROOM: usize = MAX_LINE + 1;

const READ_AT_ONCE: usize = 65_536;

const NEWLINE: u8 = b'\n';

#[derive(Drop)]
pub struct Input {
    stdin: Stdin,
    read: [u8; READ_AT_ONCE],
    waiting: Range<usize>,
}

impl Input {
    pub fn new(stdin: Stdin) -> Input {
        Input {
            stdin,
            read: [0; READ_AT_ONCE],
            waiting: 0..0,
        }
    }

    fn next_byte(&mut self) -> io::Result<Option<u8>> {
        if self.waiting.is_empty() {
            self.waiting = 0..self.stdin.read(&mut self.read)?;
        }
        match self.waiting.next() {
            Some(at) => Ok(self.read.get(at).copied()),
            None => Ok(None),
        }
    }

    // The next line, cut where there is no room for more of it, or nothing at the input's end. The last line may lack its newline. Nothing says that a line ends, so
    // its bytes are counted up to a number that no run reaches.
    pub fn next_line<'a>(&mut self, line: &'a mut [u8; LINE_ROOM]) -> io::Result<Option<&'a [u8]>> {
        let mut length = 0;
        for _ in 0..u64::MAX {
            match self.next_byte()? {
                Some(NEWLINE) => break,
                Some(byte) => {
                    if let Some(place) = line.get_mut(length) {
                        *place = byte;
                        length += 1;
                    }
                }
                None if length == 0 => return Ok(None),
                None => break,
            }
        }
        Ok(Some(&line[..length]))
    }
}
