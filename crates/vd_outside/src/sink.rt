// Where bytes are written to.
ghost use Rattle.std.specs.Prelude.{◌≡◌, ℕ, ◌<◌, ◌≤◌, List, length, IfOk, IsErrOf, OnOk};
ghost use Rattle.std.specs.declared.option.Option.{Option};
ghost use Rattle.std.specs.Io.KnownBytes.{WriteAppends};
ghost use Rattle.vd_outside.specs.Count.{HasCause, raised};

/// Why a write was not made.
#[derive(Clone, Copy, Debug, PartialEq, Eq)]
pub enum SinkFault {
    /// The outside failed.
    Failed,
    /// There was no memory for the bytes.
    OutOfMemory,
}

/// Takes bytes, one write after another.
pub trait Sink {
    /// All bytes written so far, or `None` where that isn't told.
    ghost written: { Self → Option (List ℕ) };

    /// How many faults there were.
    ghost faults: { Self → ℕ };

    /// What had been written when the last fault was counted, or `None` where that isn't told.
    ghost written_at_fault: { Self → Option (List ℕ) };

    /// Writes a front of `bytes`, at least one byte where there is one, and answers how many. A fault
    /// writes nothing. A write that failed counts one fault, and no other write counts any.
    fn write(&mut self, bytes: &[u8]) -> Result<usize, SinkFault>
        ensures count { IfOk result (λ n. n ≤ length bytes.now) }
        ensures progress { IfOk result (λ n. 0 < length bytes.now → 0 < n) }
        ensures appended { WriteAppends (written self.old) (written self.new) result bytes.now }
        ensures cause { HasCause (IsErrOf result SinkFault.Failed) (faults self.old) (faults self.new) }
        ensures one_fault { IsErrOf result SinkFault.Failed → faults self.new ≡ raised (faults self.old) }
        ensures at_fault { IsErrOf result SinkFault.Failed → written_at_fault self.new ≡ written self.old }
        ensures at_no_fault { (IsErrOf result SinkFault.Failed → ⊥) → written_at_fault self.new ≡ written_at_fault self.old }
        ensures no_fault { OnOk result (faults self.new ≡ faults self.old) }
        ensures memory { IsErrOf result SinkFault.OutOfMemory → faults self.new ≡ faults self.old }
        ensures never_lower { faults self.old ≤ faults self.new };
}
