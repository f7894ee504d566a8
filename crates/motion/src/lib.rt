//! The motion vectors of a slice's macroblocks. H.264, 8.4.1.
#![tactic(auto)]

mod around;
mod border;
mod kinds;
mod partition;
mod vectors;

pub use around::{Around, around_of};
pub use border::{Border, border_of};
pub use kinds::{is_intra, is_skip};
pub use partition::{Partition, block_at, partition_of};
pub use vectors::vectors_of;
