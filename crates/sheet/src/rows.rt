// A row by itself: whether it is of a kind and each of its words is what the kind asks for.
ghost use Rattle.std.specs.Prelude.{◌≡◌};
ghost use Rattle.sheet.specs.Answers.{row_said};
ghost use Rattle.sheet.specs.Inner.Steps.{least_of, beyond_of, rule_of, RulesFor, in_range, fits_rule};

use super::kinds::{Form, Part, Slot};
use super::{MAX_TURNS, RowWords, Rule, kinds};

// The least that a word may be.
fn least(slot: Slot) -> u16
    ensures { result ≡ least_of slot }
{
    match slot {
        Slot::Turns => 1,
        _ => 0,
    }
}

// How many variables and constants there are for a row's words to name.
#[derive(Clone, Copy)]
pub struct Named {
    pub variables: u16,
    pub constants: u16,
}

impl Named {
    // What a word must stay below.
    fn beyond(self, slot: Slot) -> u16
        ensures { result ≡ beyond_of self.variables self.constants slot }
    {
        match slot {
            Slot::Variable => self.variables,
            Slot::Constant => self.constants,
            Slot::Turns => (MAX_TURNS + 1) as u16,
            Slot::Unused => 1,
            Slot::Nothing => 0,
        }
    }

    fn rule_of(self, form: Form) -> Rule
        ensures { result ≡ rule_of self.variables self.constants form }
    {
        let Form(of_d, of_a, of_b, part) = form;
        Rule {
            least_d: least(of_d),
            d: self.beyond(of_d),
            least_a: least(of_a),
            a: self.beyond(of_a),
            b: self.beyond(of_b),
            part,
        }
    }

    // Every kind's rule, from the table of kinds.
    pub fn rules(self) -> [Rule; kinds::LAST + 1]
        ensures { RulesFor self.variables self.constants result }
    {
        kinds::forms().map(|form| self.rule_of(form))
    }
}

fn in_range(least: u16, beyond: u16, word: u16) -> bool
    ensures { result ≡ in_range least beyond word }
{
    (least..beyond).contains(&word)
}

pub fn row_fits(rule: Rule, row: RowWords) -> bool
    ensures { result ≡ fits_rule rule (row_said row) }
{
    in_range(rule.least_d, rule.d, row.d) & in_range(rule.least_a, rule.a, row.a) & (row.b < rule.b)
}
