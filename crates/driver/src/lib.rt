//! The shared driver: callers on any threads, one legal history of calls.
//!
//! A [`Driver`] is called with a [`Pass`], the caller's token of what it has seen. Each call is one event of one
//! history, which is that of a driver that does one call at a time, and hands the pass back: it has then seen
//! the history up to its own call. A pass has no bytes; what it knows is there for proofs.
#![tactic(auto)]

mod asked;
mod clock;
mod decoders;
mod devices;
mod driver;
mod items;
mod kept;
mod kernel;
mod mixers;
mod mixes;
mod output_surfaces;
mod queues;
mod renders;
mod status;
mod turns;
mod video_surfaces;
mod wishes;

pub use driver::{Answered, Driver, Pass};
pub use driver_core::{
    Capabilities, Flip, Flips, KeptCounts, Pixels, PresentStatus, Shown, SurfaceSize, Wish,
};
pub use mixes::{BeginMix, MixDone, MixJob};
pub use renders::{BeginRender, RenderDone, RenderJob};
