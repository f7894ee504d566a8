//! The outside of the programs: where bytes are read from and written to.
//!
//! A [`Shelf`] holds files by name, a [`Sink`] takes bytes. Both count their faults, so that an answer
//! that blames the outside has a cause that a contract can name. [`MemShelf`] and [`MemSink`] tell what
//! they hold, and fail when they are asked to. [`FileShelf`] and [`StreamSink`] are the edge to real
//! files and streams, and tell nothing of content. A [`Gate`] stands in the way of a running job, for tests.
#![tactic(auto)]

mod files;
mod gate;
mod mem_shelf;
mod mem_sink;
mod shelf;
mod sink;
mod stream;

pub use files::FileShelf;
pub use gate::{Gate, OpenGate};
pub use mem_shelf::MemShelf;
pub use mem_sink::MemSink;
pub use shelf::{Failed, Shelf};
pub use sink::{Sink, SinkFault};
pub use stream::StreamSink;
