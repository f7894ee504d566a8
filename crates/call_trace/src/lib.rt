//! Traces of calls on the shared driver: what callers did with it on paper, put together, and checked.
#![tactic(auto)]

mod calls;
mod merging;
mod recorder;
mod room;

pub use merging::merge;
pub use recorder::{Recorded, Recorder};
