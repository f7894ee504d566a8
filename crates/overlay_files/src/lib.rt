//! The files of overlays: bitmaps, and what they make of the pixels under them; schedules, which say when
//! and where each bitmap is shown.
#![tactic(auto)]

mod bitmap;
mod blending;
mod fields;
mod lines;
mod numbers;
mod reading;
mod schedule;
mod scheduling;
mod showing;

pub use bitmap::Bitmap;
pub use blending::blend;
pub use reading::{BitmapFault, read_bitmap};
pub use schedule::Schedule;
pub use scheduling::{ScheduleFault, have_one_schedule, read_schedule};
pub use showing::Showing;
