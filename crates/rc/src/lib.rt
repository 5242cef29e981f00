// The response code (document 01, "Response code"; Part 2, TPM_RC): what a 32-bit value says, and the value of what is said.
#![tactic(auto)]

pub mod code;
pub mod known;
