//! A driver as a slow program: plain lists that are searched from the front, one call after the other.
//!
//! What it is to do stands in driver_model, as definitions. Each call here answers a reply and leaves a state
//! for which the step of that call holds, whatever the state before was: so the definitions can be met, call by
//! call. A call that waits answers None, changes nothing, and is one that the definitions say waits.
//!
//! All calls of driver_model are here: those on devices, video and output surfaces, decoders, mixers and
//! presentation queues, the ticks of a device's clock, wishes, what is kept, and the two jobs, which are noted
//! from their beginning to their end. A mix mixes. A render doesn't decode: what it comes to is handed in, and
//! its step holds where that is what the units come to.
#![tactic(auto)]

mod changes;
mod clock;
mod decoders;
mod devices;
mod driver;
mod kept;
mod looks;
mod mixers;
mod mixes;
mod notes;
mod objects;
mod outputs;
mod queues;
mod renders;
mod sizes;
mod videos;
mod wishes;

pub use clock::PlainFlipped;
pub use driver::Plain;
pub use kept::PlainKept;
pub use objects::{
    PlainContent, PlainDecoder, PlainDevice, PlainFlip, PlainMixer, PlainNote, PlainObject,
    PlainOutput, PlainQueue, PlainQueued, PlainVideo,
};
