//! Sequence and picture parameter sets, read and written. H.264, 7.3.2.1.1 and 7.3.2.2.
#![tactic(auto)]

mod constraints;
mod fault;
mod pps;
mod pps_parts;
mod pps_reading;
mod pps_writing;
mod sps;
mod sps_parts;
mod sps_reading;
mod sps_writing;

pub use constraints::Constraints;
pub use fault::SetFault;
pub use pps::Pps;
pub use pps_reading::read_pps;
pub use pps_writing::write_pps;
pub use sps::Sps;
pub use sps_reading::read_sps;
pub use sps_writing::write_sps;
