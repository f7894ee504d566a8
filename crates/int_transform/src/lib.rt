//! The scaling and the inverse transforms of H.264's 4x4 blocks.
#![tactic(auto)]

mod blocks;
mod dc;
mod layout;
mod quantizer;

pub use blocks::residual;
pub use dc::{chroma_dc, luma_dc};
pub use quantizer::chroma_qp;
