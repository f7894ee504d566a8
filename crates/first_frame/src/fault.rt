// How the player ends where it can't go on.
use std::alloc::AllocError;
use std::io;
use vd_status::Refusal;

/// Why the player ends.
#[derive(Debug, Drop)]
pub enum Fault {
    /// The driver refused a call.
    Refused(Refusal),
    /// The stream has no further picture, or none that is taken.
    Stream,
    /// There was no memory.
    Memory,
    /// The other thread has ended.
    Gone,
    /// The stream wasn't read, or a line wasn't written.
    Outside(io::Error),
}

impl From<Refusal> for Fault {
    fn from(refusal: Refusal) -> Fault {
        Fault::Refused(refusal)
    }
}

impl From<AllocError> for Fault {
    fn from(_: AllocError) -> Fault {
        Fault::Memory
    }
}

impl From<io::Error> for Fault {
    fn from(fault: io::Error) -> Fault {
        Fault::Outside(fault)
    }
}
