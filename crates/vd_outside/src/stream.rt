// A real stream: the edge to standard output.
ghost use Rattle.std.specs.Prelude.{◌≡◌, ◌<◌, ◌≤◌, length, None, IfOk, IsErr, IsErrOf, OnOk};
ghost use Rattle.std.specs.Io.KnownBytes.{WriteAppends};
ghost use Rattle.vd_outside.specs.Count.{HasCause, raised};

use crate::sink::{Sink, SinkFault};
use std::io;
use std::io::{ErrorKind, Write};

/// A stream that takes bytes. It tells nothing of what was written.
#[derive(Drop)]
pub struct StreamSink<W> {
    to: W,
    failures: u64,
}

impl<W: Write> StreamSink<W> {
    ghost use Rattle.vd_outside.specs.Edge.{failed_writes};

    /// Writes to this stream.
    pub fn new(to: W) -> StreamSink<W>
        ensures { failed_writes result ≡ 0 }
    {
        StreamSink { to, failures: 0 }
    }
}

impl<W: Write> Sink for StreamSink<W> {
    ghost use Rattle.vd_outside.specs.Edge.{failed_writes};

    ghost written = { λ _. None };

    ghost faults = { failed_writes };

    ghost written_at_fault = { λ _. None };

    fn write(&mut self, bytes: &[u8]) -> Result<usize, SinkFault>
        ensures count { IfOk result (λ n. n ≤ length bytes.now) }
        ensures progress { IfOk result (λ n. 0 < length bytes.now → 0 < n) }
        ensures appended { WriteAppends None None result bytes.now }
        ensures cause { HasCause (IsErrOf result SinkFault.Failed) (failed_writes self.old) (failed_writes self.new) }
        ensures one_fault { IsErrOf result SinkFault.Failed → failed_writes self.new ≡ raised (failed_writes self.old) }
        ensures no_fault { OnOk result (failed_writes self.new ≡ failed_writes self.old) }
        ensures memory { IsErrOf result SinkFault.OutOfMemory → failed_writes self.new ≡ failed_writes self.old }
        ensures never_lower { failed_writes self.old ≤ failed_writes self.new }

        // It keeps no bytes, and so wants no memory for them.
        ensures only { IsErr result → IsErrOf result SinkFault.Failed }
    {
        if bytes.is_empty() {
            return Ok(0);
        }
        match write_once(&mut self.to, bytes) {
            Ok(n) if n > 0 => Ok(n),
            _ => {
                self.failures = self.failures.saturating_add(1);
                Err(SinkFault::Failed)
            }
        }
    }
}

// One write. A signal that comes in between doesn't count as a fault, but where no write gets through at all.
fn write_once<W: Write>(to: &mut W, bytes: &[u8]) -> io::Result<usize>
    ensures { IfOk result (λ n. n ≤ length bytes.now) }
{
    for _ in 0..u64::MAX {
        match to.write(bytes) {
            Err(fault) if fault.kind() == ErrorKind::Interrupted => {}
            answer => return answer,
        }
    }
    Err(io::Error::from(ErrorKind::Interrupted))
}
