//! A player of one stream: it makes the calls on a shared driver by which the stream's pictures are decoded, mixed and
//! displayed at the ticks of a script, step by step, on any thread.
#![tactic(auto)]

mod answers;
mod displaying;
mod making;
mod mixing;
mod objects;
mod phase;
mod promising;
mod rendering;
mod slots;
mod task;

pub use answers::{Stepped, Verdict};
pub use task::StreamTask;
