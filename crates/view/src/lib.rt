// Views: structs that hold the lent bytes of one checked frame. The work is done by crate frame, on the bytes that a view holds.
// `tag`, `size`, `len` and `is_empty` stand in both: a trait that has them once would hand out the held bytes, take an impl for each view and
// an import at each caller, and be no shorter.
#![tactic(auto)]

pub mod command;
pub mod response;
