// The constant words of a sheet: the whole number that a word stands for, and that number in both arithmetics.
ghost use Rattle.std.specs.Prelude.{◌≡◌, ◌+◌, ◌^◌, pos, neg_ℤ};
ghost use Rattle.std.specs.Float.Ieee.{of_int};
ghost use Rattle.std.specs.Float.{binary64};
ghost use Rattle.number.specs.Arithmetic.{signed};
ghost use Rattle.number.specs.Doubles.{doubles};
ghost use Rattle.number.specs.Residues.{residues};

use super::residue;

const FIRST_NEGATIVE: u16 = 32768;

const WORDS: u32 = 65536;

// "each a two's complement whole number, so constants run from −32768 to 32767"
fn signed(word: u16) -> i32
    ensures { result ≡ signed word }
{
    let number = word as i32;
    if word < FIRST_NEGATIVE {
        number
    } else {
        number - WORDS as i32
    }
}

// −(−32768) is 32768, which no word stands for.
fn negated(word: u16) -> i32
    ensures { result ≡ neg_ℤ (signed word) }
{
    -signed(word)
}

const TWO_TO_52_BITS: u64 = 0x4330_0000_0000_0000;

// The stated exact case: the digits' field of 2^52 counts ones, so 2^52 + n is built from its bits. No function calls it: it stands for 01's form.
fn above_two_to_52(n: u32) -> f64
    ensures { result ≡ of_int binary64 (pos (2 ^ 52 + n)) }
{
    f64::from_bits(TWO_TO_52_BITS + n as u64)
}

// A conversion has a meaning only where it is exact, as it is at every number of 32 bits: the double of exactly the word's number, +0 for word 0.
pub fn double_of(word: u16) -> f64
    ensures { result ≡ doubles.constant (signed word) }
{
    signed(word) as f64
}

// The residue of −1 is 4294967295.
pub fn residue_of(word: u16) -> u32
    ensures { result ≡ residues.constant (signed word) }
{
    let number = signed(word);
    if number < 0 {
        residue::opposite(negated(word) as u32)
    } else {
        number as u32
    }
}
