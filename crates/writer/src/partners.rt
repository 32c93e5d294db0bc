// A block's rows, found by the partners that are noted for them.
ghost use Rattle.std.specs.Prelude.{◌≡◌, ◌<◌, length, get_or};
ghost use Rattle.writer.specs.Inner.RowsWritten.{if_end};

use sheet::RowNumber;

// A row's partner.
pub fn partner(noted: &[u16], row: RowNumber) -> RowNumber
    requires { row.0 < length noted.now }
    ensures { result.0 ≡ get_or noted.now row.0 0 }
{
    RowNumber(sheet::wide(noted[row.0]))
}

// The last row of the if block that a row opens: the partner of its "else".
pub fn if_end(goes: &[u16], row: RowNumber) -> RowNumber
    requires { (row.0 < length goes.now) × (get_or goes.now row.0 0 < length goes.now) }
    ensures { result.0 ≡ if_end goes.now row.0 }
{
    partner(goes, partner(goes, row))
}
