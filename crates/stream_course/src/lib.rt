//! The course of a stream's pictures, as its bytes come: which is decoded next, which comes out, and when it is shown
//! by the ticks of a script.
#![tactic(auto)]

mod course;
mod laws;

pub use course::{Course, Ending, Turn};
pub use laws::{decoded_are_first, given_are_next, shown_are_first, ways_are_small};
