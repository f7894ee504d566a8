//! Slice headers to and from their bits. H.264, 7.3.3 and 7.4.3.
#![tactic(auto)]

mod conditions;
mod marking_reading;
mod marking_writing;
mod numbers_reading;
mod numbers_writing;
mod parts;
mod reading;
mod references_reading;
mod references_writing;
mod weights_reading;
mod weights_writing;
mod writing;

pub use reading::read_header;
pub use writing::write_header;
