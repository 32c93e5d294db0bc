// The three analyses, each of which finds a set at every point: what differs between them. One walk, compiled for each, does the rest (`walk`).
ghost use Rattle.std.specs.Prelude.{◌≡◌, ◌<◌, ℕ, List, [], length};
ghost use Rattle.sheet.specs.Inner.Words.{word_values};
ghost use Rattle.sets.specs.Inner.Operations.{Gives};
ghost use Rattle.sets.specs.Inner.RowEquations.{turn_of, has_role, row_in_turn, start_of, own_point, settled_point, joins_by};
ghost use Rattle.sets.specs.Inner.Walks.{ends_repeat};
ghost use Rattle.sets.specs.Inner.Analyses.{Which, Varied, Useful, Required, goes_back, LendsAt, known_at, marked_at, marks_over};

use super::operations::MaskedAssignment;
use super::{marks, transfers};
use sheet::RowNumber;
use sheet::kinds::Part;

// An analysis may read sets that were found before it, and leave the rows' marks on the way.
pub trait Analysis: Copy {
    ghost which: { Which };

    ghost varied: { Self → List ℕ };

    ghost useful: { Self → List ℕ };

    // Whether its set is found from the last row to the first.
    fn goes_back(self) -> bool
        ensures { result ≡ goes_back which };

    // Whether the start point's set has the variables of a role.
    fn has_role(self, role: u16) -> bool
        ensures { result ≡ has_role which role };

    // What an assignment makes of the set at its own point.
    fn assign(self, row: RowNumber, operation: MaskedAssignment, own: u64, marks: &mut [u8]) -> u64
        requires { LendsAt which (varied self) (useful self) (length marks.old) row.0 }
        ensures set { Gives operation result (λ b. turn_of which (known_at which (varied self) (useful self) row.0 b) b own) }
        ensures marks { Gives operation marks.new (λ b. marked_at which (varied self) (useful self) row.0 own b marks.old) };

    // A row of a block, which changes no set by itself.
    fn pass_over(self, row: RowNumber, marks: &mut [u8])
        requires { LendsAt which (varied self) (useful self) (length marks.old) row.0 }
        ensures { marks.new ≡ marks_over which row.0 marks.old };

    // What follows from the direction: the row that comes at a turn.
    #[tactic(auto, unfolding(crate::specs::Inner::RowEquations::row_in_turn))]
    final fn row_in_turn(self, rows: usize, turn: usize) -> RowNumber
        requires { turn < rows }
        ensures { result.0 ≡ row_in_turn which rows turn }
    {
        let number = if self.goes_back() {
            rows - 1 - turn
        } else {
            turn
        };
        RowNumber(number)
    }

    // The point that has its set from outside the sheet's rows.
    #[tactic(auto, unfolding(crate::specs::Inner::RowEquations::start_of))]
    final fn start_of(self, rows: usize) -> usize
        ensures { result ≡ start_of which rows }
    {
        if self.goes_back() { rows } else { 0 }
    }

    // The point that a row's own set stands at. The bound stands in the contracts that count on from a row's number: the project's rules want `RowNumber` a plain
    // tuple struct, which says nothing of its number.
    #[tactic(auto, unfolding(crate::specs::Inner::RowEquations::own_point))]
    final fn own_point(self, row: RowNumber) -> usize
        requires { row.0 < word_values }
        ensures { result ≡ own_point which row.0 }
    {
        if self.goes_back() { row.0 + 1 } else { row.0 }
    }

    // The point that a row settles.
    #[tactic(auto, unfolding(crate::specs::Inner::RowEquations::settled_point))]
    final fn settled_point(self, row: RowNumber) -> usize
        requires { row.0 < word_values }
        ensures { result ≡ settled_point which row.0 }
    {
        if self.goes_back() { row.0 } else { row.0 + 1 }
    }

    // Whether a row of a block takes its partner's set besides its own.
    #[tactic(auto, unfolding(crate::specs::Inner::RowEquations::joins_by))]
    final fn joins(self, part: Part) -> bool
        ensures { result ≡ joins_by which part }
    {
        if self.goes_back() {
            matches!(part, Part::If | Part::EndRepeat)
        } else {
            matches!(part, Part::EndIf | Part::Repeat)
        }
    }

    // Whether a row is where a walk leaves a repeat's body.
    #[tactic(auto, unfolding(crate::specs::Inner::Walks::ends_repeat))]
    final fn ends_repeat(self, part: Part) -> bool
        ensures { result ≡ ends_repeat which part }
    {
        if self.goes_back() {
            matches!(part, Part::Repeat)
        } else {
            matches!(part, Part::EndRepeat)
        }
    }
}

#[derive(Clone, Copy)]
pub struct Varied;

impl Analysis for Varied {
    ghost which = { Varied };

    ghost varied = { λ _. [] };

    ghost useful = { λ _. [] };

    fn goes_back(self) -> bool {
        false
    }

    fn has_role(self, role: u16) -> bool {
        sheet::is_independent(role)
    }

    #[tactic(auto, unfolding(crate::specs::Inner::RowEquations::turn_of, crate::specs::Inner::Analyses::marked_at))]
    fn assign(
        self,
        _row: RowNumber,
        operation: MaskedAssignment,
        own: u64,
        _marks: &mut [u8],
    ) -> u64 {
        transfers::varied_after(operation, own)
    }

    fn pass_over(self, _row: RowNumber, _marks: &mut [u8]) {}
}

#[derive(Clone, Copy)]
pub struct Useful;

impl Analysis for Useful {
    ghost which = { Useful };

    ghost varied = { λ _. [] };

    ghost useful = { λ _. [] };

    fn goes_back(self) -> bool {
        true
    }

    fn has_role(self, role: u16) -> bool {
        sheet::is_dependent(role)
    }

    #[tactic(auto, unfolding(crate::specs::Inner::RowEquations::turn_of, crate::specs::Inner::Analyses::marked_at))]
    fn assign(
        self,
        _row: RowNumber,
        operation: MaskedAssignment,
        own: u64,
        _marks: &mut [u8],
    ) -> u64 {
        transfers::useful_before(operation, own)
    }

    fn pass_over(self, _row: RowNumber, _marks: &mut [u8]) {}
}

// By the other two sets. Each row's byte of marks is made on the way.
#[derive(Clone, Copy)]
pub struct Required<'a> {
    pub varied: &'a [u64],
    pub useful: &'a [u64],
}

impl<'a> Analysis for Required<'a> {
    ghost which = { Required };

    ghost varied = { λ s. s.varied.now };

    ghost useful = { λ s. s.useful.now };

    fn goes_back(self) -> bool {
        false
    }

    fn has_role(self, _role: u16) -> bool {
        false
    }

    #[tactic(auto, unfolding(crate::specs::Inner::RowEquations::turn_of, crate::specs::Inner::Analyses::marked_at, crate::specs::Inner::Analyses::known_at))]
    fn assign(
        self,
        row: RowNumber,
        operation: MaskedAssignment,
        own: u64,
        marks: &mut [u8],
    ) -> u64 {
        let known = marks::activity_at(row, operation, self.varied, self.useful);
        marks[row.0] = marks::row_byte(operation, known, own);
        transfers::required_after(operation, known, own)
    }

    fn pass_over(self, row: RowNumber, marks: &mut [u8]) {
        marks[row.0] = 0;
    }
}
