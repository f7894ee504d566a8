//! Pictures that are decoded through a driver of their own, each under a number by which later ones refer to it.
#![tactic(auto)]

mod buffer;
mod laws;
mod making;
mod renaming;

pub use buffer::{NUMBERS, PictureBuffer};
pub use laws::{pictures_are_found_by_handles, references_are_found_by_handles, surfaces_are_kept};
