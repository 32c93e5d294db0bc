// The numbers of a line as the calls take them: lengths, words and residues in decimal, doubles by their bits in hexadecimal.
ghost use Rattle.std.specs.Prelude.{List, Option, to_bits, ◌≡◌, ℕ};
ghost use Rattle.std.specs.Result.{result_ok};
ghost use Rattle.std.specs.Float.Ieee.{binary64};
ghost use Rattle.text.specs.Numbers.{digit as digit_worth, decimal as decimal_of, double_said, length_said, number_from, residue_said, word_said};
ghost use Rattle.text.specs.Pattern.{double_stamp, residue_stamp, word_stamp};

use super::fields::BadLine;
use std::num::TryFromIntError;
use std::{fmt, num};

// A number as a field writes it.
pub trait Number: Copy {
    // The number that a field's bytes say, if they say one.
    ghost said: { List ℕ → Option Self };

    const ZERO: Self;

    fn read(field: &[u8]) -> Result<Self, BadLine>
        ensures { result_ok result ≡ said field.now };
}

// A number that a lent buffer holds.
pub trait Cell: Number {
    // The number of a stamp, and a number's bits.
    ghost stamp_of: { ℕ → Self };

    ghost bits_of: { Self → ℕ };

    // What a buffer holds at a place with this stamp before a call.
    fn stamped(stamp: u16) -> Self
        ensures { result ≡ stamp_of stamp };

    // The number as 64 bits: of a double its own.
    fn bits(self) -> u64
        ensures { result ≡ bits_of self };

    // As a field reads it.
    fn write<W: fmt::Write>(self, out: &mut W) -> fmt::Result {
        write!(out, "{}", self.bits())
    }
}

impl From<TryFromIntError> for BadLine {
    fn from(_e: TryFromIntError) -> BadLine {
        BadLine
    }
}

const DECIMAL: u64 = 10;

const HEXADECIMAL: u64 = 16;

// A double's bits in hexadecimal.
pub const BITS_DIGITS: usize = 16;

// By hand, as std's `to_digit` and `from_str_radix` take capital letters too, and a plus sign, and no line may have either.
fn digit(byte: u8, base: u64) -> Result<u64, BadLine>
    ensures { result_ok result ≡ digit_worth base byte }
{
    match byte {
        b'0'..=b'9' => Ok(u64::from(byte - b'0')),
        b'a'..=b'f' if base == HEXADECIMAL => Ok(DECIMAL + u64::from(byte - b'a')),
        _ => Err(BadLine),
    }
}

// A number beyond 64 bits counts as the largest one.
fn number_in(base: u64, field: &[u8]) -> Result<u64, BadLine>
    ensures { result_ok result ≡ number_from base 0 field.now }
{
    let mut number: u64 = 0;
    for byte in field {
        number = number
            .saturating_mul(base)
            .saturating_add(digit(*byte, base)?);
    }
    Ok(number)
}

fn decimal(field: &[u8]) -> Result<u64, BadLine>
    ensures { result_ok result ≡ decimal_of field.now }
{
    if field.is_empty() {
        return Err(BadLine);
    }
    number_in(DECIMAL, field)
}

// The three in decimal have an impl each: one for all that have `TryFrom<u64>` would need a bound for the zero too, and is no shorter.
impl Number for usize {
    ghost said = { length_said };

    const ZERO: usize = 0;

    fn read(field: &[u8]) -> Result<usize, BadLine> {
        Ok(usize::try_from(decimal(field)?)?)
    }
}

impl Number for u16 {
    ghost said = { word_said };

    const ZERO: u16 = 0;

    fn read(field: &[u8]) -> Result<u16, BadLine> {
        Ok(u16::try_from(decimal(field)?)?)
    }
}

impl Cell for u16 {
    ghost stamp_of = { word_stamp };

    ghost bits_of = { λ x. x };

    fn stamped(stamp: u16) -> u16 {
        stamp
    }

    fn bits(self) -> u64 {
        u64::from(self)
    }
}

impl Number for u32 {
    ghost said = { residue_said };

    const ZERO: u32 = 0;

    fn read(field: &[u8]) -> Result<u32, BadLine> {
        Ok(u32::try_from(decimal(field)?)?)
    }
}

// What the stamps of residues are added to.
pub const RESIDUES: u32 = 0x8000_0000;

impl Cell for u32 {
    ghost stamp_of = { residue_stamp };

    ghost bits_of = { λ x. x };

    fn stamped(stamp: u16) -> u32 {
        RESIDUES | u32::from(stamp)
    }

    fn bits(self) -> u64 {
        u64::from(self)
    }
}

impl Number for f64 {
    ghost said = { double_said };

    const ZERO: f64 = 0.0;

    fn read(field: &[u8]) -> Result<f64, BadLine> {
        if field.len() == BITS_DIGITS {
            return Ok(num::f64_from_bits_with_nan(number_in(HEXADECIMAL, field)?));
        }
        Err(BadLine)
    }
}

// What the stamps of doubles are added to, the bits of 2: every sum is a finite double's.
pub const DOUBLES: u64 = 0x4000_0000_0000_0000;

impl Cell for f64 {
    ghost stamp_of = { double_stamp };

    ghost bits_of = { to_bits binary64 };

    fn stamped(stamp: u16) -> f64 {
        num::f64_from_bits_with_nan(DOUBLES | u64::from(stamp))
    }

    // All NaNs are one.
    fn bits(self) -> u64 {
        num::f64_to_bits_with_nan(self)
    }

    fn write<W: fmt::Write>(self, out: &mut W) -> fmt::Result {
        write!(out, "{:016x}", self.bits())
    }
}
