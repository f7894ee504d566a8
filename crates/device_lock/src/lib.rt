//! A ticket lock whose holders keep one history of what they did.
//!
//! A [`Lock`] holds one value. Who takes it, by a [`LockPass`], is told the value and the history for
//! which it stands; logs one item, or none; and gives the value back. A pass is a token of no bytes that
//! exists in proofs alone: its view says what its caller has seen of the one history and which items of
//! it are its own. Whatever the schedule, every pass has seen a beginning of that history.
#![tactic(auto)]

mod held;
mod kept;
mod laws;
mod lock;
mod pass;
mod rule;
mod steps;
#[cfg(test)]
mod tests;
mod view;
mod waiting;

pub use held::{Held, Logged};
pub use kept::{Kept, Names};
pub use laws::{one_history, passes_hold_nothing};
pub use lock::Lock;
pub use pass::LockPass;
pub use view::{Account, Share, Turn, View};
