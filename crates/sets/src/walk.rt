// An analysis's set at every point: one walk over the rows in its direction, back from the far end of a repeat to its near end where it brings more.
ghost use Rattle.std.specs.Prelude.{◌≡◌, suc, ◌+◌, ◌≤◌, ◌<◌, length, true};
ghost use Rattle.sheet.specs.Inner.Words.{word_values};
ghost use Rattle.sheet.specs.Rows.{Assignment};
ghost use Rattle.sets.specs.Rounds.{set_at, least};
ghost use Rattle.sets.specs.Inner.Operations.{Gives, Performs};
ghost use Rattle.sets.specs.Inner.Analyses.{Lends, LendsAt, known_at, marked_at, marks_left};
ghost use Rattle.sets.specs.Inner.RowEquations.{given_to, line_in, turn_of, row_in_turn, own_point, settled_point};
ghost use Rattle.sets.specs.Inner.RowEquations.{start_of, all_equations, seed_in};
ghost use Rattle.sets.specs.Inner.Walks.{ends_repeat, asks_partner, side_by, Grown, Judging, Brings, AtBlock, own_side, PassedRow, Settles};

use super::analyses::Analysis;
use super::operations::MaskedAssignment;
use super::partners::Partners;
use super::{LaidSheet, equations, partners, rows, transfers};
use sheet::kinds::Part;
use sheet::{RowNumber, kinds};

// How far a walk has come: the turn of the next row, and the set at its own point. The set goes from row to row in hand: the row before has only just
// stored it, and to load it again would wait for that.
#[derive(Clone, Copy)]
struct WalkedTo {
    pub turn: usize,
    pub own: u64,
}

// The answer is the set that the point has now.
fn grow(sets: &mut [u64], point: usize, more: u64) -> u64
    requires { point < length sets.old }
    ensures { Grown sets.old point more sets.new result }
{
    sets[point] |= more;
    sets[point]
}

// What the start point has: the variables with the role, from the last on.
fn seed_of<A: Analysis>(analysis: A, laid: LaidSheet) -> u64
    ensures { result ≡ seed_in A.which laid.entry.words.now laid.entry.variables }
{
    let mut seed: u64 = 0;
    for variable in (0..laid.variables).rev() {
        let there = analysis.has_role(laid.words[variable + 1]);
        seed = 2 * seed + there as u64;
    }
    seed
}

// Puts into the start point's set what it has from outside the sheet's rows.
#[tactic(auto, using(crate::proofs::RightSides::start_below))]
fn begin<A: Analysis>(analysis: A, laid: LaidSheet, sets: &mut [u64]) -> WalkedTo
    requires { laid.rows < length sets.old }
    ensures { (result.turn ≡ 0) × Grown sets.old (start_of A.which laid.entry.rows)
        (seed_in A.which laid.entry.words.now laid.entry.variables) sets.new result.own }
{
    let seed = seed_of(analysis, laid);
    let start = analysis.start_of(laid.rows);
    let own = grow(sets, start, seed);
    WalkedTo { turn: 0, own }
}

// An assignment's equation: what it makes of its own set is put into the set that it settles. A walk tells assignments from the other rows once, before all
// else: they have no partner and end no repeat, and their operation is made once for all that is asked of it.
#[tactic(auto, using(crate::proofs::RightSides::settled_below))]
fn pass_assignment<A: Analysis>(
    analysis: A,
    row: RowNumber,
    operation: MaskedAssignment,
    sets: &mut [u64],
    marks: &mut [u8],
    reached: WalkedTo,
) -> WalkedTo
    requires { (row.0 < word_values) × (suc row.0 < length sets.old) × (reached.turn < word_values)
        × LendsAt A.which (A.varied analysis) (A.useful analysis) (length marks.old) row.0 }
    ensures turn { result.turn ≡ reached.turn + 1 }
    ensures set { (b : Assignment) → Performs operation b → Grown sets.old (settled_point A.which row.0)
        (turn_of A.which (known_at A.which (A.varied analysis) (A.useful analysis) row.0 b) b reached.own) sets.new result.own }
    ensures marks { Gives operation marks.new (λ b. marked_at A.which (A.varied analysis) (A.useful analysis) row.0 reached.own b marks.old) }
{
    let right = analysis.assign(row, operation, reached.own, marks);
    let own = grow(sets, analysis.settled_point(row), right);
    WalkedTo {
        turn: reached.turn + 1,
        own,
    }
}

// Whether a row ends a repeat and brings more to the body's start.
#[tactic(auto, using(crate::proofs::RightSides::settled_below))]
fn brings_more<A: Analysis>(
    analysis: A,
    part: Part,
    row: RowNumber,
    others: &[u16],
    sets: &[u64],
    own: u64,
) -> bool
    requires { Judging A.which part row.0 others.now sets.now own }
    ensures { Brings A.which part row.0 others.now sets.now result }
{
    if analysis.ends_repeat(part) {
        let near = partners::partner_there(others, row);
        let kept = equations::set_at(sets, analysis.settled_point(near));
        return (kept | own) != kept;
    }
    false
}

// What a row of a block puts into the set that it settles. A loop's far end takes the set of the point that stands for its partner.
fn side_of<A: Analysis>(analysis: A, part: Part, own: u64, sets: &[u64], partner: RowNumber) -> u64
    requires { (partner.0 < word_values) × (asks_partner A.which part ≡ true → (own_point A.which partner.0 < length sets.now) × (partner.0 < length sets.now)) }
    ensures { result ≡ side_by A.which part own (set_at sets.now (own_point A.which partner.0)) (set_at sets.now partner.0) }
{
    if analysis.ends_repeat(part) {
        return equations::set_at(sets, partner.0);
    }
    equations::right_side(analysis, part, own, sets, partner)
}

// The equation of a block's row; or, where the row brings more to the start of a repeat's body, that of the repeat's other end, after which the walk goes on.
#[tactic(auto, using(crate::proofs::RightSides::own_below, crate::proofs::RightSides::settled_below, crate::proofs::Walking::turn_below))]
fn pass_block_row<A: Analysis>(
    analysis: A,
    part: Part,
    rows: usize,
    row: RowNumber,
    taken: &[u16],
    back: &[u16],
    sets: &mut [u64],
    reached: WalkedTo,
) -> WalkedTo
    requires { AtBlock A.which part rows row.0 taken.now back.now sets.old reached }
    ensures { PassedRow A.which part (own_side A.which part row.0 taken.now sets.old) rows row.0 back.now
        sets.old sets.new result }
{
    let own = reached.own;
    if brings_more(analysis, part, row, back, sets, own) {
        let near = partners::partner_there(back, row);
        let both = equations::own_set(analysis, sets, near) | own;
        let own = grow(sets, analysis.settled_point(near), both);
        let entered = analysis.row_in_turn(rows, near.0);
        return WalkedTo {
            turn: entered.0 + 1,
            own,
        };
    }
    let partner = partners::partner_there(taken, row);
    let right = side_of(analysis, part, own, sets, partner);
    let own = grow(sets, analysis.settled_point(row), right);
    WalkedTo {
        turn: reached.turn + 1,
        own,
    }
}

// An analysis's set at every point, from empty ones; and what the analysis leaves in the marks.
pub fn settle<A: Analysis>(
    analysis: A,
    laid: LaidSheet,
    partners: Partners,
    sets: &mut [u64],
    marks: &mut [u8],
)
    requires settles { Settles A.which
        (given_to A.which laid.words.now laid.first (A.varied analysis) (A.useful analysis) partners.taken.now)
        partners.back.now laid.rows laid.variables sets.old }
    requires lent { Lends A.which (A.varied analysis) (A.useful analysis) (length marks.old) laid.rows }
    ensures sets { sets.new ≡ least laid.entry.variables (suc laid.entry.rows)
        (all_equations A.which
        (given_to A.which laid.entry.words.now laid.entry.first (A.varied analysis) (A.useful analysis) partners.entry.taken.now)
        laid.entry.rows (seed_in A.which laid.entry.words.now laid.entry.variables)) }
    ensures marks { marks.new ≡ marks_left A.which (A.varied analysis) (A.useful analysis) sets.new
        (line_in laid.entry.words.now laid.entry.first) laid.entry.rows marks.old }
{
    // Taken apart once: handed on whole at each row, as tried, they cost eight nested repeats a ninth more instructions, and straight rows a twenty-fifth.
    let taken = partners.taken;
    let back = partners.back;
    let forms = kinds::forms();
    let mut reached = begin(analysis, laid, sets);
    // A `while`: the walk goes back at repeats.
    while reached.turn < laid.rows {
        let row = analysis.row_in_turn(laid.rows, reached.turn);
        let kind = rows::kind_of(laid, row);
        let form = forms[kind];
        if kinds::assigns(form.3) {
            let operation = transfers::operation_at(laid, row, form);
            reached = pass_assignment(analysis, row, operation, sets, marks, reached);
        } else {
            analysis.pass_over(row, marks);
            let rows = laid.rows;
            reached = pass_block_row(analysis, form.3, rows, row, taken, back, sets, reached);
        }
    }
}
