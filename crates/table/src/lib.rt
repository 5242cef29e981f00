// The tables of commands and their search, and the tags that TpmSt has.
#![tactic(auto)]

pub mod dispatch;
mod parts;
pub mod revision;
pub mod row;
pub mod tag;
