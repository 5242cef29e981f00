// Every public call as C sees it, under the prefix skein_. One convention for all, which include/skeinloft.h tells C:
// numbers go in first, then bytes that are read, then bytes that are written, last a lent array of eight numbers. The
// refusal's number comes out (0: an answer). An answer's numbers go to the places 0 to 3 of the array, a refusal's
// fields, in document 01's order, to the places from 4 on; no other place changes. All parts of a frame come out by
// value, behind that number; what they tell of sessions goes into the writers as it is. Numbers for kinds, rules and refusals, and a size
// beside its room, are C's interface.
#![tactic(auto)]

pub mod array;
pub mod buffer1024;
pub mod buffer64;
pub mod code;
pub mod command;
pub mod dispatch;
pub mod field;
mod fixed;
pub mod header;
pub mod nonce;
pub mod out;
pub mod response;
mod rules;
pub mod tpm2b;
