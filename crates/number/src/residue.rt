// Residues modulo 2^32: an operation on u32 goes through u64, where nothing wraps, and is reduced once. No operation stops, and none divides.
ghost use Rattle.std.specs.Prelude.{◌≡◌};
ghost use Rattle.std.proofs.Common.{lit<};
ghost use Rattle.number.specs.Arithmetic.{operations_of, value};
ghost use Rattle.number.specs.Answers.{why_never, is_residues};
ghost use Rattle.number.specs.Residues.{residue, opposite, residues};

use super::{Never, Number, constant};

const MODULUS: u64 = 0x1_0000_0000;

fn reduced(n: u64) -> u32
    ensures { result ≡ residue n }
{
    (n % MODULUS) as u32
}

pub fn sum(x: u32, y: u32) -> u32
    ensures { value result ≡ residues.sum x y }
{
    reduced(x as u64 + y as u64)
}

pub fn product(x: u32, y: u32) -> u32
    ensures { value result ≡ residues.product x y }
{
    reduced(x as u64 * y as u64)
}

pub fn opposite(x: u32) -> u32
    ensures { result ≡ opposite x }
{
    reduced(MODULUS - x as u64)
}

impl Number for u32 {
    type Stop = Never;

    ghost Why = { ⊥ };

    ghost why = { why_never };

    ghost operations = { operations_of residues };

    ghost known = { is_residues };

    fn sum(self, other: u32) -> Result<u32, Never> {
        Ok(sum(self, other))
    }

    fn difference(self, other: u32) -> Result<u32, Never> {
        Ok(reduced(self as u64 + opposite(other) as u64))
    }

    fn product(self, other: u32) -> Result<u32, Never> {
        Ok(product(self, other))
    }

    fn negation(self) -> Result<u32, Never> {
        Ok(opposite(self))
    }

    fn quotient(self, _other: u32) -> Option<Result<u32, Never>> {
        None
    }

    fn less(self, other: u32) -> bool {
        self < other
    }

    fn constant(word: u16) -> u32 {
        constant::residue_of(word)
    }

    fn zero() -> u32 {
        0
    }

    fn is_admitted(self) -> bool {
        true
    }

    fn divides() -> bool {
        false
    }

    ghost takes_little = { lit< tt };
}
