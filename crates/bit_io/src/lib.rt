//! Bits, codewords and the escaping of NAL units. H.264, 7.2, 7.3.1 and 9.1.
#![tactic(auto)]

mod emulation;
mod escaping;
mod laws;
mod reader;
mod window;
mod writer;

pub use emulation::{UnescapeFault, unescape};
pub use escaping::{escape, escaping_is_undone};
pub use laws::codewords_are_prefix_free;
pub use reader::BitReader;
pub use writer::{BitWriter, Mark};
