//! Which pictures of a stream are shown, and at which ticks of a script, while they come out one after the other.
//!
//! Picture i in output order, from 0, has the time (i + 1) times the period, and its tick is the first one at that
//! time or after it. It is shown there unless the stream is preempted before, or the next picture has the same tick.
#![tactic(auto)]

mod laws;
mod pacer;

pub use laws::promises_are_kept;
pub use pacer::Pacer;
