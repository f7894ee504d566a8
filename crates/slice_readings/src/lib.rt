//! Whether a payload reads as a slice.
#![tactic(auto)]

mod laws;

pub use laws::{parts_are_decided, readings_are_decided};
