// The program's buffers: how long they are, and how much of each a request asks to be lent.
ghost use Rattle.std.specs.Prelude.{length, min, option_map, ◌≡◌, ◌≤◌};
ghost use Rattle.std.specs.Result.{result_ok};
ghost use Rattle.text.specs.Lending.{cut, lengths_read};
ghost use Rattle.text.specs.Lines.{fields_left};
ghost use Rattle.text.specs.declared.lend.TheConstants.{PLACES, TABLE_WORDS};

use super::fields::{BadLine, End, Fields};

// More than the largest sheet, 2,147 words, and the largest table, 20,485, so that the library refuses and not the program.
pub const SHEET_WORDS: usize = 4_096;

pub const TABLE_WORDS: usize = 32_768;

// Places of each stack, and of a result.
pub const PLACES: usize = 4_096;

// The start of any buffer, `count` long, or all of it where it is shorter.
pub fn first_bytes(buffer: &[u8], count: usize) -> &[u8]
    ensures { length result.now ≤ count }
{
    buffer.get(..count).unwrap_or(buffer)
}

// Which buffers a verb lends. Its line gives their lengths in this order: the table's, both stacks', the result's.
#[derive(Clone, Copy)]
pub enum Lends {
    Nothing,
    Table,
    Result,
    TableAndResult,
    All,
}

const MOST_LENGTHS: usize = 4;

// How much of each buffer is lent, 0 of one that the verb doesn't lend.
#[derive(Clone, Copy)]
pub struct Lent {
    pub room: usize,
    pub values: usize,
    pub turns: usize,
    pub result: usize,
    ghost room_is_there: { room ≤ TABLE_WORDS },
    ghost values_fit: { values ≤ PLACES },
    ghost turns_fit: { turns ≤ PLACES },
    ghost result_fits: { result ≤ PLACES },
}

impl Lent {
    // As much as is asked for, or all that there is: of any buffer.
    pub fn part(asked: usize, has: usize) -> usize
        ensures fits { result ≤ has }
        ensures smaller { result ≡ min asked has }
    {
        asked.min(has)
    }

    fn of(room: usize, values: usize, turns: usize, res: usize) -> Lent
        ensures { record { room = result.room; values = result.values; turns = result.turns; result = result.result }
            ≡ cut (record { room = room; values = values; turns = turns; result = res }) }
    {
        Lent {
            room: Lent::part(room, TABLE_WORDS),
            values: Lent::part(values, PLACES),
            turns: Lent::part(turns, PLACES),
            result: Lent::part(res, PLACES),
        }
    }

    pub fn read(fields: &mut Fields, lends: Lends) -> Result<Lent, BadLine>
        ensures { option_map
            (λ it. (record { room = it.room; values = it.values; turns = it.turns; result = it.result }, fields_left fields.new))
            (result_ok result)
            ≡ lengths_read lends (fields_left fields.old) }
    {
        let mut into = [0usize; MOST_LENGTHS];
        match (lends, fields.numbers(End::Slash, &mut into)?) {
            (Lends::Nothing, []) => Ok(Lent::of(0, 0, 0, 0)),
            (Lends::Table, [room]) => Ok(Lent::of(*room, 0, 0, 0)),
            (Lends::Result, [res]) => Ok(Lent::of(0, 0, 0, *res)),
            (Lends::TableAndResult, [room, res]) => Ok(Lent::of(*room, 0, 0, *res)),
            (Lends::All, [room, values, turns, res]) => {
                Ok(Lent::of(*room, *values, *turns, *res))
            }
            _ => Err(BadLine),
        }
    }
}
