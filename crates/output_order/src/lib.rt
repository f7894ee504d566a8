//! The order in which pictures come out of a decoder: period by period, in each by rising picture order count. H.264, C.4.
#![tactic(auto)]

mod sorted;
mod waiting;

pub use waiting::{Late, Waiting};
