//! What is decided, and finite properties, of which a search ends.
#![tactic(auto)]

mod laws;

pub use laws::{equations_are_decided, searches_end};
