// Why the program ends before its last line.
use std::alloc::AllocError;
use std::io;
use vd_status::Refusal;

/// Why the program ends.
#[derive(Debug, Drop)]
pub enum Fault {
    /// The driver refused a call.
    Refused(Refusal),
    /// More bytes than a submission takes.
    TooLong,
    /// There was no memory.
    Memory,
    /// The places of two callers are wrong.
    Places,
    /// A line was not read or written.
    Outside(io::Error),
}

impl From<Refusal> for Fault {
    fn from(refusal: Refusal) -> Fault {
        Fault::Refused(refusal)
    }
}

impl From<AllocError> for Fault {
    fn from(_: AllocError) -> Fault {
        Fault::Memory
    }
}

impl From<io::Error> for Fault {
    fn from(fault: io::Error) -> Fault {
        Fault::Outside(fault)
    }
}
