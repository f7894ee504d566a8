// A recorder, and what its calls answer.
ghost use Rattle.std.specs.Prelude.{◌≡◌, []};
ghost use Rattle.call_trace.specs.Recorded.{kept};

use driver::{Answered, Pass};
use std::alloc::Global;
use trace_records::Record;

/// The records of the calls that were made through it, in their order.
#[derive(Drop)]
pub struct Recorder {
    pub(crate) records: Vec<Record>,
}

/// What a call through a recorder answers.
#[derive(Drop)]
pub enum Recorded<T> {
    /// The driver's own answer.
    Made(Answered<T>),
    /// There was no room for the call's records, so that it wasn't made.
    NoRoom(Pass),
}

impl Recorder {
    /// A recorder that has recorded nothing.
    pub fn new(alloc: Global) -> Recorder
        ensures { kept result ≡ [] }
    {
        Recorder {
            records: Vec::new(alloc),
        }
    }
}
