// A row's kind, by which a pass looks the row up in the table of kinds. A pass reads each word where it needs it: four words that are answered as one
// struct are packed into one number and taken apart again.
ghost use Rattle.std.specs.Prelude.{◌≡◌, ◌<◌};
ghost use Rattle.sheet.specs.Inner.Kinds.{opens_test};
ghost use Rattle.sets.specs.Inner.RowEquations.{KindRead, line_in};

use super::LaidSheet;
use sheet::{RowNumber, kinds};

// One that the table has.
pub fn kind_of(laid: LaidSheet, row: RowNumber) -> usize
    requires { row.0 < laid.rows }
    ensures { KindRead laid.entry.words.now laid.entry.first row.0 result }
{
    laid.words[laid.first + row.0 * sheet::ROW_WORDS] as usize
}

// Whether a row opens a loop with a test.
pub fn opens_test(laid: LaidSheet, row: RowNumber) -> bool
    requires { row.0 < laid.rows }
    ensures { result ≡ opens_test (line_in laid.entry.words.now laid.entry.first row.0) }
{
    kind_of(laid, row) == sheet::wide(kinds::WHILE)
}
