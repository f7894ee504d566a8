// Writes of all bytes.
ghost use Rattle.std.specs.Prelude.{◌≡◌, ◌≤◌, IfErr, OnOk, IsErrOf};
ghost use Rattle.std.specs.Io.KnownBytes.{Appends};
ghost use Rattle.vd_outside.specs.Count.{HasCause};
ghost use Rattle.vdplay.specs.Exit.{exit_of};
ghost use Rattle.vdplay.specs.Outside.{StopsWriting, sink_state};
ghost use Rattle.vdplay.specs.Run.{AppendsFront};

use vd_outside::{Sink, SinkFault};

/// Writes all bytes, in as many writes as the sink wants. A fault leaves a front of them written.
pub fn write_all<K: Sink>(sink: &mut K, bytes: &[u8]) -> Result<(), SinkFault>
    ensures all { OnOk result (Appends (K.written sink.old) (K.written sink.new) bytes.now) }
    ensures front { AppendsFront (K.written sink.old) (K.written sink.new) bytes.now }
    ensures cause { HasCause (IsErrOf result SinkFault.Failed) (K.faults sink.old) (K.faults sink.new) }
    ensures faultless { OnOk result (K.faults sink.new ≡ K.faults sink.old) }
    ensures never_lower { K.faults sink.old ≤ K.faults sink.new }
    ensures stops { IfErr result (λ fault. StopsWriting (exit_of fault)
        (sink_state (K.written sink.old) (K.faults sink.old) (K.written_at_fault sink.old))
        (sink_state (K.written sink.new) (K.faults sink.new) (K.written_at_fault sink.new))) }
{
    let mut written = 0;
    while written < bytes.len() {
        written += sink.write(&bytes[written..])?;
    }
    Ok(())
}
