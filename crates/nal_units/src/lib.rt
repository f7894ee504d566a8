//! Splits a byte stream into its NAL units (H.264, Annex B), and writes one.
#![tactic(auto)]

mod byte_stream;
mod finder;

pub use byte_stream::{join, text_has_one_reading};
pub use finder::{Finder, Found};
