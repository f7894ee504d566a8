//! The driver for one caller: all its calls, each done at once or not at all.
//!
//! A [`Core`] keeps what is live: devices, surfaces, decoders, mixers and queues. It stands for a state of
//! driver_model, and each call takes the step that is defined there. A call that would have to wait answers
//! [`CoreAnswer::Later`], and nothing has changed.
#![tactic(auto)]

mod answer;
mod clock;
mod contents;
mod decoders;
mod devices;
mod driver;
mod gives;
mod jobs;
mod kept;
mod laws;
mod looks;
mod mixers;
mod mixes;
mod output_surfaces;
mod queues;
mod references;
mod renders;
mod samples;
mod sends;
mod status;
mod video_surfaces;
mod wishes;
mod writes;

pub use answer::{CoreAnswer, CoreBegin};
pub use driver::Core;
pub use driver_jobs::{CoreMix, CoreMixDone, CoreRender, CoreRenderDone, count_units};
pub use driver_model::{Capabilities, KeptCounts, PresentStatus, Shown, SurfaceSize, Wish};
pub use driver_objects::{Flip, Flips, Pixels};
pub use laws::jobs_come_to_their_beginnings;
pub use submission::Submission;
