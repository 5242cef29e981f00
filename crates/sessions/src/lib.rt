// The writers of commands and responses, over a lent slice of session records of any length. Each takes what that of marshal takes, under
// names that docs/ has.
#![tactic(auto)]

pub mod command;
pub mod records;
pub mod response;
