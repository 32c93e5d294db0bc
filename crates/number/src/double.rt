// Doubles: each operation rounded once, and a stop where the result isn't finite.
ghost use Rattle.std.specs.Prelude.{◌≡◌};
ghost use Rattle.std.proofs.Common.{lit<};
ghost use Rattle.std.proofs.Math.Option.{some};
ghost use Rattle.number.specs.Arithmetic.{operations_of, over};
ghost use Rattle.number.specs.Answers.{outcome_of, why_not_finite, is_doubles};
ghost use Rattle.number.specs.Doubles.{doubles, Reason, finite_or_stop};

use super::{NotFinite, Number, constant};

const INFINITY_BITS: u64 = 0x7FF0_0000_0000_0000;

// Strictly between the infinities: a NaN fails both comparisons.
fn is_finite(x: f64) -> bool
    ensures { result ≡ doubles.admits x }
{
    let infinity = f64::from_bits(INFINITY_BITS);
    if x < infinity { -infinity < x } else { false }
}

fn finite_or_stop(x: f64) -> Result<f64, NotFinite>
    ensures { outcome_of why_not_finite result ≡ finite_or_stop x }
{
    if is_finite(x) { Ok(x) } else { Err(NotFinite) }
}

// Doubles always have a quotient: infinite where a number is divided by a zero of either sign, no number where both are zeros, so a stop.
pub fn quotient(x: f64, y: f64) -> Result<f64, NotFinite>
    ensures { some (outcome_of why_not_finite result) ≡ over doubles.quotient x y }
{
    finite_or_stop(x / y)
}

impl Number for f64 {
    type Stop = NotFinite;

    ghost Why = { Reason };

    ghost why = { why_not_finite };

    ghost operations = { operations_of doubles };

    ghost known = { is_doubles };

    fn sum(self, other: f64) -> Result<f64, NotFinite> {
        finite_or_stop(self + other)
    }

    fn difference(self, other: f64) -> Result<f64, NotFinite> {
        finite_or_stop(self - other)
    }

    fn product(self, other: f64) -> Result<f64, NotFinite> {
        finite_or_stop(self * other)
    }

    // The sign bit alone turns, so no finite double stops here.
    fn negation(self) -> Result<f64, NotFinite> {
        finite_or_stop(-self)
    }

    fn quotient(self, other: f64) -> Option<Result<f64, NotFinite>> {
        Some(quotient(self, other))
    }

    fn less(self, other: f64) -> bool {
        self < other
    }

    fn constant(word: u16) -> f64 {
        constant::double_of(word)
    }

    // +0
    fn zero() -> f64 {
        0.0
    }

    fn is_admitted(self) -> bool {
        is_finite(self)
    }

    fn divides() -> bool {
        true
    }

    ghost takes_little = { lit< tt };
}
