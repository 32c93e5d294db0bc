// R, S and T, in one pass over the sheet's rows.
ghost use Rattle.table.specs.Inner.MarkedRows.{RowsReadable};
ghost use Rattle.table.specs.Inner.Needs.{Sized, SizesFound};

use super::count;
use super::needs::{Level, NO_LEVEL, NOTHING, Need};
use sheet::kinds::Part;
use sheet::{RowNumber, kinds};

#[derive(Clone, Copy)]
pub struct Sizes {
    pub rows: usize,
    pub need: Need,
}

// Entry n of the levels, from 1 on, is what is kept of the block n deep: a stack of fixed size, as a call uses no heap.
pub fn sizes_of(words: &[u16], shape: sheet::Shape, marks: &[u8]) -> Sizes
    requires readable { RowsReadable words.now shape marks.now }
    requires sized { Sized words.now shape.first_row shape.rows marks.now }
    ensures { SizesFound words.now shape marks.now result }
{
    let mut levels = [NO_LEVEL; sheet::MAX_DEPTH + 1];
    let forms = kinds::forms();
    let mut depth: usize = 0;
    let mut need = NOTHING;
    let mut rows: usize = 1;
    for p in 0..shape.rows {
        let row = sheet::row_of(words, shape.first_row, RowNumber(p));
        let kind = sheet::wide(row.kind);
        let part = forms[kind].3;
        let mark = marks[p];
        rows += count::row_count(row, part, mark);
        match part {
            Part::Assignment => need = need.with_saved(mark),
            Part::If => {
                depth += 1;
                levels[depth] = Level::opened(need, 1);
                need = NOTHING;
            }
            Part::Else => {
                levels[depth] = levels[depth].split(need);
                need = NOTHING;
            }
            Part::EndIf => {
                need = levels[depth].after_if(need);
                depth -= 1;
            }
            Part::Repeat => {
                depth += 1;
                levels[depth] = Level::loop_opened(need, row);
                need = NOTHING;
            }
            Part::EndRepeat => {
                need = levels[depth].after_repeat(need);
                depth -= 1;
            }
        }
    }
    Sizes { rows, need }
}
