//! The intra prediction of H.264: the samples of a block from those beside it.
#![tactic(auto)]

mod chroma;
mod luma16;
mod luma4;
mod means;
mod modes4;
mod plane;
mod rows;

pub use chroma::predict_chroma;
pub use luma4::predict4;
pub use luma16::predict16;
