//! CAVLC: blocks of transform coefficients to and from their bits. H.264, 7.3.5.3.1 and 9.2.
#![tactic(auto)]

mod elements;
mod laws;
mod levels;
mod reading;
mod writing;

pub use laws::{blocks_are_prefix_free, coefficients_are_small, level_words_give_codes_back};
pub use reading::{read_block, read_block_into};
pub use writing::write_block;
