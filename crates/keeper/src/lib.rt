// The nonce keeper: for each open session its handle and the last nonce that the TPM sent for it. Its state is lent by the caller, as
// bytes; every call takes every state, also one that no run of calls gives.
#![tactic(auto)]

pub mod answer;
pub mod refusal;
pub mod session;
pub mod state;
