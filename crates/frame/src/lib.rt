// Whole command and response frames: read, checked and divided, over the caller's bytes. Rules, bytes and a response's code go in one by one, as C
// has them; crate view holds them as one. Command and response have casts of one text over another `judge`: a function over both would need
// a trait for what is judged, and would be longer; the `_mut` ones are proved by a walk by hand that goes by the name of what they call.
#![tactic(auto)]

pub mod areas;
pub mod command;
pub mod header;
pub mod response;
pub mod rules;
pub mod session;
pub mod walk;
