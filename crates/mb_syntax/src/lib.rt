//! The macroblocks of a slice to and from their bits. H.264, 7.3.4 and 7.3.5.
#![tactic(auto)]

mod counts;
mod inter;
mod intra;
mod kinds;
mod laws;
mod macroblock;
mod residual;
mod slice;
mod slice_data;
mod writing_kinds;
mod writing_residual;
mod writing_slice_data;

pub use laws::{slice_data_is_unique, slice_data_reads_back};
pub use slice::Slice;
pub use slice_data::read_slice_data;
pub use writing_slice_data::write_slice_data;
