// Planes of samples and pictures.
#![tactic(auto)]

mod picture;
mod plane;
mod rect;
mod tile;

pub use picture::Picture;
pub use plane::{Plane, planes_are_their_samples};
pub use tile::{Tile, place_tiles};
