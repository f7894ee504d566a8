//! Where the ticks and the preemptions of a script stand: the first tick at a time or after it, and the line that
//! preempts a stream.
#![tactic(auto)]

mod laws;
mod ticks;

pub use laws::{places_are_in_order, searches_go_on, ticks_rise, whole_scripts_are_decided};
pub use ticks::{ScriptTick, preemption_of, tick_from};
