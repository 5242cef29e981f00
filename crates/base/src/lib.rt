// The ground of the frame reader: big-endian fields, the three numbers of a header kept apart, and the refusals.
#![tactic(auto)]

pub mod code;
pub mod error;
pub mod field;
pub mod part;
