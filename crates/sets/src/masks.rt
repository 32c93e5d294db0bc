// Sets of variables as masks: variable i is bit i.
ghost use Rattle.std.specs.Prelude.{◌≡◌, ◌<◌, cond};
ghost use Rattle.sets.specs.VariableSets.{empty, has, single, without};
ghost use Rattle.sets.specs.Inner.Masks.{mask_bits, meets};

use sheet::Variable;

#[tactic(auto, unfolding(crate::specs::VariableSets::has))]
pub fn has(s: u64, i: Variable) -> bool
    requires { i.0 < mask_bits }
    ensures { result ≡ has s i.0 }
{
    (s >> i.0) % 2 == 1
}

pub fn single(i: Variable) -> u64
    requires { i.0 < mask_bits }
    ensures { result ≡ single i.0 }
{
    1 << i.0
}

// Whether the two have a variable in common.
pub fn meets(s: u64, t: u64) -> bool
    ensures { result ≡ meets s t }
{
    (s & t) != 0
}

pub fn only_if(there: bool, s: u64) -> u64
    ensures { result ≡ cond there s empty }
{
    if there { s } else { 0 }
}

#[tactic(auto, unfolding(crate::specs::VariableSets::without))]
pub fn without(i: Variable, s: u64) -> u64
    requires { i.0 < mask_bits }
    ensures { result ≡ without i.0 s }
{
    let bit = single(i);
    (s | bit) ^ bit
}
