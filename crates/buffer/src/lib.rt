// A TPM2B, a 2-byte length and that many bytes (document 01, "Buffers"): as a view of lent bytes, and as a buffer of
// fixed capacity.
#![tactic(auto)]

pub mod fixed;
pub mod view;
