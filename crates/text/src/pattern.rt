// The pattern that every lent buffer holds before a call, and the comparison of what stands there after it.
ghost use Rattle.std.specs.Prelude.{◌↔◌, ◌≡◌, length, IsTrue};
ghost use Rattle.text.specs.Pattern.{ClearBelow, IsPattern, StandsFrom};
ghost use Rattle.text.specs.Pattern.{stamp as stamp_at};

use super::numbers::Cell;

// Below 65,536, so that one more is a word.
const PERIOD: usize = 65_521;

// Nonzero at every place.
fn stamp(at: usize) -> u16
    ensures { result ≡ stamp_at at }
{
    (at % PERIOD + 1) as u16
}

pub fn fill<T: Cell>(buffer: &mut [T])
    ensures same_length { length buffer.new ≡ length buffer.old }
    ensures filled { IsPattern T.stamp_of buffer.new }
{
    for (at, cell) in buffer.iter_mut().enumerate() {
        *cell = T::stamped(stamp(at));
    }
}

// Whether the places from `from` on hold the pattern.
pub fn stands<T: Cell>(buffer: &[T], from: usize) -> bool
    ensures { IsTrue result ↔ StandsFrom T.bits_of T.stamp_of buffer.now from }
{
    buffer
        .iter()
        .enumerate()
        .skip(from)
        .all(|(at, cell)| cell.bits() == T::stamped(stamp(at)).bits())
}

// Whether the first `count` places hold zeros, and the others the pattern. The zero of a double is +0.
pub fn cleared<T: Cell>(buffer: &[T], count: usize) -> bool
    ensures { IsTrue result
        ↔ ClearBelow T.bits_of buffer.now count
        × StandsFrom T.bits_of T.stamp_of buffer.now count }
{
    buffer.iter().take(count).all(|cell| cell.bits() == 0) & stands(buffer, count)
}
