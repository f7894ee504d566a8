// How the program ends.
ghost use Rattle.std.specs.Prelude.{◌≡◌, Some};
ghost use Rattle.vdplay.specs.Exit.{line_of, number_of};

use std::alloc::AllocError;
use std::fmt;
use vd_outside::{Failed, SinkFault};

/// How a command ended.
#[derive(Clone, Copy, Debug, PartialEq, Eq)]
pub enum Exit {
    /// Everything was read to its end and written.
    Done,
    /// The words are no line of the grammar.
    Usage,
    /// A read failed.
    ReadFault,
    /// The access unit at this byte of the stream of this number isn't accepted.
    BadStream { stream: u32, offset: u64 },
    /// A write failed.
    WriteFault,
    /// There was no memory.
    OutOfMemory,
    /// The stream of this number is larger than this decoder takes.
    TooLarge { stream: u32 },
}

impl Exit {
    /// The exit status of the process.
    pub fn number(&self) -> u8
        ensures { result ≡ number_of self.now }
    {
        match self {
            Exit::Done => 0,
            Exit::Usage => 2,
            Exit::ReadFault => 4,
            Exit::BadStream { .. } => 5,
            Exit::WriteFault => 6,
            Exit::OutOfMemory => 7,
            Exit::TooLarge { .. } => 8,
        }
    }
}

/// The line for standard error, without its end; empty where all went well.
impl fmt::Display for Exit {
    ghost output = { λ exit. Some (line_of exit) };

    fn fmt<W: fmt::Write>(&self, f: &mut fmt::Formatter<W>) -> fmt::Result {
        match self {
            Exit::Done => Ok(()),
            Exit::Usage => write!(f, "vdplay: bad command line"),
            Exit::ReadFault => write!(f, "vdplay: a read failed"),
            Exit::BadStream { stream, offset } => write!(
                f,
                "vdplay: stream {stream}: access unit at byte {offset} is not accepted"
            ),
            Exit::WriteFault => write!(f, "vdplay: a write failed"),
            Exit::OutOfMemory => write!(f, "vdplay: no memory"),
            Exit::TooLarge { stream } => write!(f, "vdplay: stream {stream} is too large"),
        }
    }
}

impl From<Failed> for Exit {
    ghost use Rattle.std.specs.Prelude.{◌≡◌};
    ghost use Rattle.vdplay.specs.declared.exit.Exit.TheVariants.{ReadFault};

    ghost from_gives = { λ _ exit. exit ≡ ReadFault };

    fn from(_: Failed) -> Exit {
        Exit::ReadFault
    }
}

impl From<SinkFault> for Exit {
    ghost use Rattle.std.specs.Prelude.{◌≡◌};
    ghost use Rattle.vdplay.specs.Exit.{exit_of};

    ghost from_gives = { λ fault exit. exit ≡ exit_of fault };

    fn from(fault: SinkFault) -> Exit {
        match fault {
            SinkFault::Failed => Exit::WriteFault,
            SinkFault::OutOfMemory => Exit::OutOfMemory,
        }
    }
}

impl From<AllocError> for Exit {
    ghost use Rattle.std.specs.Prelude.{◌≡◌};
    ghost use Rattle.vdplay.specs.declared.exit.Exit.TheVariants.{OutOfMemory};

    ghost from_gives = { λ _ exit. exit ≡ OutOfMemory };

    fn from(_: AllocError) -> Exit {
        Exit::OutOfMemory
    }
}
