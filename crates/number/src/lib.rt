// The two arithmetics, doubles and residues modulo 2^32, and the constants of a sheet in both: what a number must be able to do, and each type that does.
// Every contract says that the answer is the one of the arithmetic's record (specs/Arithmetic.antt), `doubles` for f64 and `residues` for u32.
#![tactic(auto)]

ghost use Rattle.std.specs.Prelude.{◌≡◌};
ghost use Rattle.number.specs.Sizes.{TakesLittle};
ghost use Rattle.number.specs.Arithmetic.{Operations, arithmetic_on, over, divides, signed};
ghost use Rattle.number.specs.Answers.{outcome_of, outcome_if_any, Known};

pub mod constant;
pub mod double;
pub mod residue;

// Why an operation on doubles stops: its result isn't finite.
#[derive(Clone, Copy)]
pub struct NotFinite;

// Why an operation on residues stops: none does.
#[derive(Clone, Copy)]
pub enum Never {}

// A number that sheets are run in. "A result is either a finite double or a stop": an operation answers a Result, whose Ok carries the number.
pub trait Number: Copy {
    type Stop: Copy;

    ghost Why: { Type 0 };

    ghost why: { Self.Stop → Why };

    ghost operations: { Operations Self Why };

    ghost known: { Known (arithmetic_on operations) };

    fn sum(self, other: Self) -> Result<Self, Self::Stop>
        ensures { outcome_of why result ≡ operations.sum self other };

    fn difference(self, other: Self) -> Result<Self, Self::Stop>
        ensures { outcome_of why result ≡ operations.difference self other };

    fn product(self, other: Self) -> Result<Self, Self::Stop>
        ensures { outcome_of why result ≡ operations.product self other };

    fn negation(self) -> Result<Self, Self::Stop>
        ensures { outcome_of why result ≡ operations.negation self };

    // None in an arithmetic that doesn't divide.
    fn quotient(self, other: Self) -> Option<Result<Self, Self::Stop>>
        ensures { outcome_if_any why result ≡ over operations.quotient self other };

    fn less(self, other: Self) -> bool
        ensures { result ≡ operations.less self other };

    // The number that a constant's word stands for.
    fn constant(word: u16) -> Self
        ensures { result ≡ operations.constant (signed word) };

    // For every zero that the tool itself sets.
    fn zero() -> Self
        ensures { result ≡ operations.zero };

    // Whether it may be a start value or a seed.
    fn is_admitted(self) -> bool
        ensures { result ≡ operations.admits self };

    fn divides() -> bool
        ensures { result ≡ divides (arithmetic_on operations) };

    ghost takes_little: { TakesLittle Self.row };
}
