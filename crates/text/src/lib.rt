// What a request's line is made of, apart from the calls that answer it: fields and the numbers that they write, the lengths that every request begins with, and
// the buffers that are lent.
#![tactic(auto)]

pub mod fields;
pub mod lend;
pub mod numbers;
pub mod pattern;
