// A row's equation: the point that it settles, and what the set there must hold.
ghost use Rattle.std.specs.Prelude.{◌≡◌, true, ◌||◌, ◌<◌, length};
ghost use Rattle.sheet.specs.Inner.Words.{word_values};
ghost use Rattle.sets.specs.Rounds.{set_at};
ghost use Rattle.sets.specs.Inner.RowEquations.{splits, joins_by, own_point, settled_point, block_side};

use super::analyses::Analysis;
use sheet::RowNumber;
use sheet::kinds::Part;

// The set at a point.
pub fn set_at(sets: &[u64], point: usize) -> u64
    requires { point < length sets.now }
    ensures { result ≡ set_at sets.now point }
{
    sets[point]
}

// The set at a row's own point, which its equation takes.
pub fn own_set<A: Analysis>(analysis: A, sets: &[u64], row: RowNumber) -> u64
    requires { (row.0 < word_values) × (own_point A.which row.0 < length sets.now) }
    ensures { result ≡ set_at sets.now (own_point A.which row.0) }
{
    set_at(sets, analysis.own_point(row))
}

// What a row of a block that is no loop's far end puts into the set that it settles, `own` being the set at its own point.
pub fn right_side<A: Analysis>(
    analysis: A,
    part: Part,
    own: u64,
    sets: &[u64],
    partner: RowNumber,
) -> u64
    requires { (partner.0 < word_values) × ((splits part || joins_by A.which part) ≡ true → own_point A.which partner.0 < length sets.now) }
    ensures { result ≡ block_side A.which part own (set_at sets.now (own_point A.which partner.0)) }
{
    // "else" takes its partner's set alone.
    if part == Part::Else {
        return own_set(analysis, sets, partner);
    }
    if analysis.joins(part) {
        return own | own_set(analysis, sets, partner);
    }
    own
}
