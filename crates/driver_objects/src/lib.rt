//! The objects of a driver: what each of them has, the list of those that a driver keeps, and what becomes of it.
//!
//! [`Objects`] finds a live object by its kind and name, and a kept one by its place among all objects that
//! were ever made. A destroyed object stays in the list until it is forgotten, which [`sweep`] does once no queue
//! names it any more. Ticks of a clock show what queues have ([`all_due`], [`flips_to`], [`show_all`]), and jobs
//! that are out are known by [`jobs::OutJob`].
#![tactic(auto)]

pub mod arguments;
mod content;
mod counts;
mod device_ends;
mod fault;
mod flips;
mod free_numbers;
pub mod jobs;
pub mod kinds;
mod lends;
mod object;
mod objects;
pub mod references;
mod stored;
mod sweeps;
mod ticks;

pub use content::{
    Content, Decoder, Device, LastFlip, OutputSurface, PresentationQueue, VideoMixer, VideoSurface,
};
pub use counts::{count_devices, count_surfaces};
pub use device_ends::destroy_all;
pub use fault::AddFault;
pub use flips::{Flip, Flips, Pixels, flips_to};
pub use free_numbers::{free_holder, free_queue_number};
pub use lends::lend_samples;
pub use object::Object;
pub use objects::Objects;
pub use stored::Stored;
pub use sweeps::sweep;
pub use ticks::{Due, all_due, is_due_written, set_time, show_all};
