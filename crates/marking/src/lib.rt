//! Which frames are marked as used for reference, and the picture order counts of pictures, from their headers. H.264,
//! 8.2.1 and 8.2.5.
#![tactic(auto)]

mod after;
mod begun;
mod counts;
mod cycles;
mod frames;
mod header_fields;
mod info;
mod laws;
mod marker;
mod marks;
mod numbers;
mod operations;
mod sliding;

pub use begun::{Begun, MarkFault};
pub use header_fields::header_info;
pub use laws::{named_behind, own_number_is_least};
pub use marker::Marker;
