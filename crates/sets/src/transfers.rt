// An assignment as the code has it: what it reads, and what it does to each of the three sets.
ghost use Rattle.std.specs.Prelude.{◌≡◌, ◌<◌, true};
ghost use Rattle.sheet.specs.Inner.RowLines.{source_of, numbered_row};
ghost use Rattle.sheet.specs.Inner.Kinds.{assigns};
ghost use Rattle.sets.specs.Transfers.{any_read, reads, varied_after, useful_before, activity_of, adjoint_use, required_after, recorded_by};
ghost use Rattle.sets.specs.Inner.Masks.{mask_bits, named_by};
ghost use Rattle.sets.specs.Inner.Operations.{PerformsRow, Gives, activity_by};
ghost use Rattle.sets.specs.Inner.RowEquations.{Formed};

use super::operations::MaskedAssignment;
use super::{LaidSheet, masks};
use sheet::kinds::{Form, Slot};
use sheet::{RowNumber, Variable, kinds};

// What is known of an assignment: whether a is varied before it, whether b is, and whether it is active.
#[derive(Clone, Copy)]
pub struct KnownActivity {
    pub varied_a: bool,
    pub varied_b: bool,
    pub active: bool,
}

// The set of the variable that a word names, without a branch: kinds follow each other in no order that a processor could foresee. A word that names
// none, such as a constant's number, never becomes a variable.
fn named(slot: Slot, word: u16) -> u64
    requires { word < mask_bits }
    ensures { result ≡ named_by slot word }
{
    let there = kinds::names_variable(slot) as u64;
    let place = word as usize;
    there << place
}

// An assignment's operation, `form` being that of its kind.
pub fn operation_at(laid: LaidSheet, row: RowNumber, form: Form) -> MaskedAssignment
    requires { (row.0 < laid.rows) × Formed laid.words.now laid.first row.0 form × (assigns form.3 ≡ true) }
    ensures { PerformsRow result (numbered_row laid.entry.words.now laid.entry.first row.0) }
{
    let words = laid.words;
    let from = laid.first + row.0 * sheet::ROW_WORDS;
    MaskedAssignment {
        kind: words[from],
        target: Variable(words[from + 1] as usize),
        first: named(form.1, words[from + 2]),
        second: named(form.2, words[from + 3]),
    }
}

#[tactic(auto, using(crate::proofs::OperationLaws::any_said))]
fn any_read(row: MaskedAssignment, s: u64) -> bool
    ensures { Gives row result (λ b. any_read s (source_of b)) }
{
    masks::meets(s, row.first) | masks::meets(s, row.second)
}

#[tactic(auto, using(crate::proofs::OperationLaws::reads_said))]
fn reads(row: MaskedAssignment) -> u64
    ensures { Gives row result (λ b. reads (source_of b)) }
{
    row.first | row.second
}

pub fn varied_after(row: MaskedAssignment, before: u64) -> u64
    ensures { Gives row result (λ b. varied_after b before) }
{
    if any_read(row, before) {
        before | masks::single(row.target)
    } else {
        masks::without(row.target, before)
    }
}

pub fn useful_before(row: MaskedAssignment, after: u64) -> u64
    ensures { Gives row result (λ b. useful_before b after) }
{
    let before = masks::without(row.target, after) | reads(row);
    if masks::has(after, row.target) {
        before
    } else {
        after
    }
}

#[tactic(auto, using(crate::proofs::OperationLaws::activity_said))]
pub fn activity(row: MaskedAssignment, varied: u64, useful: u64) -> KnownActivity
    ensures { Gives row (activity_by result) (λ b. activity_of b varied useful) }
{
    let varied_a = masks::meets(varied, row.first);
    let varied_b = masks::meets(varied, row.second);
    let active = masks::has(useful, row.target) & (varied_a | varied_b);
    KnownActivity {
        varied_a,
        varied_b,
        active,
    }
}

// The one place that says what a row's adjoint needs: of a product each operand whose fellow is varied, for the fellow's derivative is that operand; of a
// quotient the same, and the divisor always.
fn adjoint_use(row: MaskedAssignment, known: KnownActivity) -> u64
    ensures { Gives row result (λ b. adjoint_use (source_of b) (activity_by known)) }
{
    let divides = row.kind == kinds::QUOTIENT;
    let first = masks::only_if(known.varied_b, row.first);
    let second = masks::only_if(known.varied_a | divides, row.second);
    if known.active & ((row.kind == kinds::PRODUCT) | divides) {
        first | second
    } else {
        0
    }
}

#[tactic(auto, using(crate::proofs::OperationLaws::required_said))]
pub fn required_after(row: MaskedAssignment, known: KnownActivity, before: u64) -> u64
    ensures { Gives row result (λ b. required_after b (activity_by known) before) }
{
    masks::without(row.target, before | adjoint_use(row, known))
}

#[tactic(auto, using(crate::proofs::OperationLaws::recorded_said))]
pub fn recorded(row: MaskedAssignment, known: KnownActivity, required: u64) -> bool
    ensures { Gives row result (λ b. recorded_by b (activity_by known) required) }
{
    masks::has(required, row.target) | masks::has(adjoint_use(row, known), row.target)
}
