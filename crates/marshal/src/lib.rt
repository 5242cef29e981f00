// The writers of commands and responses, over plain parts, into lent room.
#![tactic(auto)]

pub mod command;
pub mod mode;
mod put;
pub mod response;
mod total;
