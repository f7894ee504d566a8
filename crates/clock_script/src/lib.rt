//! Scripts of a display's clock: when it ticks, and when a stream's device is preempted.
#![tactic(auto)]

mod draft;
mod lines;
mod numbers;
mod reading;
mod script;

pub use reading::{ScriptFault, have_one_answer, read_script, scripts_are_short};
pub use script::{Script, ScriptLine};
