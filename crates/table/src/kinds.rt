// The further kinds of a table's rows, each by its number: a row is words (01), which a buffer holds.
pub const SAVE: u16 = 12;

pub const TAKE_BACK: u16 = 13;

pub const SAVE_TURN: u16 = 14;

pub const ON_TURN: u16 = 15;

pub const CLEAR: u16 = 16;

pub const TURN_ROUND: u16 = 17;

pub const ON_COUNT: u16 = 20;
