//! The constructed samples of slices: predictions plus residuals, before deblocking. H.264, 8.3 to 8.5.
#![tactic(auto)]

mod availability;
mod chroma;
mod columns;
mod construction;
mod edges;
mod inputs;
mod inter_samples;
mod intra;
mod laws;
mod mark;
mod modes;
mod quantizer;
mod raw;
mod rect;
mod references;
mod residual;
mod sides;
mod tiles;

pub use construction::rebuild;
pub use laws::{slices_have_one_solution, stopped_slices_have_no_solution};
pub use references::Refs;
