//! The presentation queues of a driver: what is queued and what is shown, and when a queue's next surface may be shown.
//!
//! All queues stand in one [`Queues`], and all its memory is taken when it is made.
#![tactic(auto)]

mod entry;
mod queues;

pub use entry::Entry;
pub use queues::Queues;
