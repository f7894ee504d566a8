// Bytes written to memory, with writes that fail when they are asked to.
ghost use Rattle.std.specs.Prelude.{◌≡◌, ◌↔◌, ◌<◌, ◌≤◌, [], length, vec_len, Some, Contains, IfOk, IsErrOf, OnOk};
ghost use Rattle.std.specs.Io.KnownBytes.{WriteAppends};
ghost use Rattle.vd_outside.specs.Count.{HasCause, raised};

use crate::sink::{Sink, SinkFault};
use std::alloc::{AllocError, Global};

/// Bytes in memory. It tells all that was written, and fails only at the writes that it was made to fail
/// at and for want of memory. A write that doesn't fail takes all its bytes.
#[derive(Drop)]
pub struct MemSink {
    written: Vec<u8>,
    failing: Vec<u64>,
    writes: u64,
    failures: u64,
    // How many bytes had been written when a write failed last.
    length_then: usize,
    ghost within: { length_then ≤ vec_len written },
}

impl MemSink {
    ghost use Rattle.vd_outside.specs.Memory.{failed_writes, failing_writes, next_write, written_then, written_to};

    /// A sink to which nothing was written. The writes with the numbers `failing`, from 0, will fail.
    pub fn new(alloc: Global, failing: Vec<u64>) -> Result<MemSink, AllocError>
        ensures empty { IfOk result (λ sink. written_to sink ≡ []) }
        ensures failing { IfOk result (λ sink. failing_writes sink ≡ failing.items) }
        ensures unwritten { IfOk result (λ sink. next_write sink ≡ 0) }
        ensures no_fault { IfOk result (λ sink. failed_writes sink ≡ 0) }
        ensures nothing_then { IfOk result (λ sink. written_then sink ≡ []) }
    {
        Ok(MemSink {
            written: Vec::new(alloc),
            failing,
            writes: 0,
            failures: 0,
            length_then: 0,
        })
    }

    /// All bytes written so far.
    pub fn bytes(&self) -> &[u8]
        ensures { result.now ≡ written_to self.now }
    {
        &self.written
    }
}

impl Sink for MemSink {
    ghost use Rattle.vd_outside.specs.Memory.{failed_writes, failing_writes, next_write, written_then, written_to};

    ghost written = { λ sink. Some (written_to sink) };

    ghost faults = { failed_writes };

    ghost written_at_fault = { λ sink. Some (written_then sink) };

    fn write(&mut self, bytes: &[u8]) -> Result<usize, SinkFault>
        ensures count { IfOk result (λ n. n ≤ length bytes.now) }
        ensures progress { IfOk result (λ n. 0 < length bytes.now → 0 < n) }
        ensures appended { WriteAppends (Some (written_to self.old)) (Some (written_to self.new)) result bytes.now }
        ensures cause { HasCause (IsErrOf result SinkFault.Failed) (failed_writes self.old) (failed_writes self.new) }
        ensures one_fault { IsErrOf result SinkFault.Failed → failed_writes self.new ≡ raised (failed_writes self.old) }
        ensures at_fault { IsErrOf result SinkFault.Failed → written_then self.new ≡ written_to self.old }
        ensures at_no_fault { (IsErrOf result SinkFault.Failed → ⊥) → written_then self.new ≡ written_then self.old }
        ensures no_fault { OnOk result (failed_writes self.new ≡ failed_writes self.old) }
        ensures memory { IsErrOf result SinkFault.OutOfMemory → failed_writes self.new ≡ failed_writes self.old }
        ensures never_lower { failed_writes self.old ≤ failed_writes self.new }

        // It fails at the writes that it was made to fail at, and takes all bytes at the others.
        ensures only { IsErrOf result SinkFault.Failed ↔ Contains (failing_writes self.old) (next_write self.old) }
        ensures whole { IfOk result (λ n. n ≡ length bytes.now) }
        ensures failing { failing_writes self.new ≡ failing_writes self.old }

        // A write that fails, or takes its bytes, has its number; want of memory changes nothing.
        ensures numbered { OnOk result (next_write self.new ≡ raised (next_write self.old)) }
        ensures failed { IsErrOf result SinkFault.Failed →
            (next_write self.new ≡ raised (next_write self.old)) × (failed_writes self.new ≡ raised (failed_writes self.old)) }
        ensures unchanged { IsErrOf result SinkFault.OutOfMemory →
            (next_write self.new ≡ next_write self.old) × (written_to self.new ≡ written_to self.old) }
    {
        if self.failing.contains(&self.writes) {
            self.writes = self.writes.saturating_add(1);
            self.failures = self.failures.saturating_add(1);
            self.length_then = self.written.len();
            return Err(SinkFault::Failed);
        }
        match self.written.extend_from_slice(bytes) {
            Ok(()) => {
                self.writes = self.writes.saturating_add(1);
                Ok(bytes.len())
            }
            Err(_) => Err(SinkFault::OutOfMemory),
        }
    }
}
