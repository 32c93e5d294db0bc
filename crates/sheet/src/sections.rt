// The three counts of a sheet, each judged with its section before the next.
ghost use Rattle.std.specs.Prelude.{◌≡◌, ◌+◌, ◌≤◌, length, ltb, position};
ghost use Rattle.sheet.specs.Bounds.{limit};
ghost use Rattle.sheet.specs.Reading.{count_at, roles_fit};
ghost use Rattle.sheet.specs.Inner.Steps.{count_said, roles_said, CountsSaid};

use super::{
    Counts, MAX_CONSTANTS, MAX_ROLE, MAX_ROWS, MAX_VARIABLES, MIN_VARIABLES, No, ROW_WORDS, wide,
};

// The count at a place, from low to high, of items of so many words each.
fn count_at(words: &[u16], place: usize, low: usize, high: usize, width: usize) -> Result<usize, No>
    requires { width ≤ limit.row_words }
    ensures { count_said result ≡ count_at words.now place low high width }
{
    let Some(word) = words.get(place).copied() else {
        return Err(No::WordsEnd(place));
    };
    let count = wide(word);
    if !(low..=high).contains(&count) {
        return Err(No::CountBeyond(place));
    }
    let first = place + 1;
    let size = count * width;
    if words.len() - first < size {
        return Err(No::WordsEnd(first));
    }
    Ok(count)
}

// The first role above the greatest.
fn role_above(roles: &[u16]) -> Option<usize>
    ensures { result ≡ position (λ role. ltb limit.greatest_role role) roles.now }
{
    roles.iter().position(|role| MAX_ROLE < *role)
}

// The roles, which begin at word 1.
fn roles_fit(roles: &[u16]) -> Result<(), No>
    ensures { roles_said result ≡ roles_fit roles.now 1 }
{
    match role_above(roles) {
        Some(before) => Err(No::RoleAbove(1 + before)),
        None => Ok(()),
    }
}

pub fn counts_read(words: &[u16]) -> Result<Counts, No>
    ensures { CountsSaid words.now result }
{
    let variables = count_at(words, 0, MIN_VARIABLES, MAX_VARIABLES, 1)?;
    let constant_count = 1 + variables;
    roles_fit(&words[1..constant_count])?;
    let constants = count_at(words, constant_count, 0, MAX_CONSTANTS, 1)?;
    let row_count = constant_count + 1 + constants;
    let rows = count_at(words, row_count, 0, MAX_ROWS, ROW_WORDS)?;
    Ok(Counts {
        variables,
        constants,
        rows,
    })
}
