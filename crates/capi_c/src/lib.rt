// The static library for C, which include/skeinloft.h declares. Each export is the function of crate capi that has its name, with
// its arguments and its clauses: a library exports nothing itself.
#![tactic(auto)]

pub mod array;
pub mod buffer1024;
pub mod buffer64;
pub mod code;
pub mod command;
pub mod dispatch;
pub mod field;
pub mod header;
pub mod nonce;
pub mod response;
pub mod tpm2b;
