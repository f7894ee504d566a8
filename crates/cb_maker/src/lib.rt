//! A stream made from a number: every kind of macroblock, drawn, and spelled as a file.
#![tactic(auto)]

mod blocks;
mod draws;
mod inter;
mod intra;
mod kinds;
mod macroblocks;
mod slices;
mod stream;

pub use stream::{INFO, PICTURE_SLICES, PICTURES, SIZE, SLICE_MBS, make};
