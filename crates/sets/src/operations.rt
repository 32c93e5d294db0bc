// An assignment as the code has it. Specifications name it, so it has this file alone.
ghost use Rattle.std.specs.Prelude.{◌<◌};
ghost use Rattle.sets.specs.Inner.Masks.{mask_bits};

use sheet::Variable;

// An assignment's kind, its target, which a mask has a bit for, and the variables that its words a and b name, as sets: the empty one for a word that names
// none.
#[derive(Clone, Copy)]
pub struct MaskedAssignment {
    pub kind: u16,
    pub target: Variable,
    pub first: u64,
    pub second: u64,
    ghost small: { target.0 < mask_bits },
}
