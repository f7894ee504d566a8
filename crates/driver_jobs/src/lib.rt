//! The jobs of a driver: the decoding of a picture and the mixing of one.
//!
//! A job holds all that it needs, so that it is run apart from the driver that it was begun on: what becomes of
//! the driver's objects meanwhile changes nothing of it. What was done is handed back to the driver.
#![tactic(auto)]

mod mixes;
mod renders;
mod units;

pub use mixes::{CoreMix, CoreMixDone};
pub use renders::{CoreRender, CoreRenderDone};
pub use units::count_units;
