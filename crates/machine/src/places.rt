// Places, which no other module builds, and the place that a straight row leads to, from what its code answered.
ghost use Rattle.std.specs.Prelude.{◌≡◌};
ghost use Rattle.machine.specs.Inner.RowSteps.{went_to, did_to, values_to, turns_to, first_place, left_at, following, moved, within, raised};

use super::{Acted, Ahead, Ended, Place, Ran, Stuck};
use sheet::RowNumber;

pub fn went_to(went: Result<(), Stuck>, next: Place) -> Acted
    ensures { result ≡ went_to went next }
{
    match went {
        Ok(()) => Acted::On(next, Ahead::Any),
        Err(Stuck) => Acted::Stuck,
    }
}

pub fn did_to<S: Copy>(did: Result<(), S>, next: Place, ahead: Ahead) -> Acted
    ensures { result ≡ did_to did next ahead }
{
    match did {
        Ok(()) => Acted::On(next, ahead),
        Err(_) => Acted::Stopped,
    }
}

// A row that moved the value stack.
pub fn values_to(moved: Result<usize, Stuck>, next: Place, ahead: Ahead) -> Acted
    ensures { result ≡ values_to moved next ahead }
{
    match moved {
        Ok(height) => Acted::On(next.raised(height, next.turns), ahead),
        Err(Stuck) => Acted::Stuck,
    }
}

// A row that moved the turn stack.
pub fn turns_to(moved: Result<usize, Stuck>, next: Place) -> Acted
    ensures { result ≡ turns_to moved next }
{
    match moved {
        Ok(height) => Acted::On(next.raised(next.values, height), Ahead::Any),
        Err(Stuck) => Acted::Stuck,
    }
}

impl Place {
    // Where a run starts, with empty stacks.
    pub fn first(steps: usize) -> Place
        ensures { result ≡ first_place steps }
    {
        Place {
            at: RowNumber(0),
            depth: 0,
            values: 0,
            turns: 0,
            left: steps,
        }
    }

    // The end of a run here.
    pub fn left_by(self, ended: Ended) -> Ran
        ensures { result ≡ left_at self ended }
    {
        Ran { place: self, ended }
    }

    pub fn following(self, at: RowNumber, left: usize) -> Place
        ensures { result ≡ following self at.0 left }
    {
        Place { at, left, ..self }
    }

    // The same place at another row.
    pub fn moved(self, at: RowNumber) -> Place
        ensures { result ≡ moved self at.0 }
    {
        Place { at, ..self }
    }

    // The same place with another number of open repeats.
    pub fn within(self, depth: usize) -> Place
        ensures { result ≡ within self depth }
    {
        Place { depth, ..self }
    }

    // The same place with other heights of the two stacks.
    pub fn raised(self, values: usize, turns: usize) -> Place
        ensures { result ≡ raised self values turns }
    {
        Place {
            values,
            turns,
            ..self
        }
    }
}
