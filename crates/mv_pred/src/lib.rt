//! Predictions of motion vectors. H.264, 8.4.1.1 and 8.4.1.3.
#![tactic(auto)]

mod near;
mod prediction;

pub use near::Near;
pub use prediction::{predict, skip};
