//! What a core does in any order is what a driver does that has one history: calls, jobs that are begun, run and ended,
//! by any callers.
#![tactic(auto)]

mod laws;

pub use laws::{answers_are_replies, begun_renders_come_to_replies, runs_have_histories};
