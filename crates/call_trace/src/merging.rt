// The records of several recorders as one trace.
ghost use Rattle.std.specs.Prelude.{◌≡◌, List, IfOk};
ghost use Rattle.call_trace.specs.Recorded.{all_kept};
ghost use Rattle.trace_records.specs.Places.{IsByPlace};
ghost use Rattle.trace_records.specs.Records.{bytes_of_all};
ghost use Rattle.trace_records.specs.declared.record.Record.{Record as RecordOf};

use super::recorder::Recorder;
use std::alloc::{AllocError, Global};
use trace_records::{Record, write_by_place};

/// The bytes of all records by their places, the lowest first: those of one place in the order of the recorders, and
/// of one recorder in the order in which it has them.
pub fn merge(alloc: Global, recorders: Vec<Recorder>) -> Result<Vec<u8>, AllocError>
    ensures { IfOk result (λ bytes. (sorted : List RecordOf) × IsByPlace (all_kept recorders.items) sorted × (bytes.items ≡ bytes_of_all sorted)) }
{
    write_by_place(alloc, gather(alloc, &recorders)?)
}

// All records, one recorder after the other.
fn gather(alloc: Global, recorders: &[Recorder]) -> Result<Vec<Record>, AllocError>
    ensures { IfOk result (λ records. records.items ≡ all_kept recorders.now) }
{
    let mut records = Vec::new(alloc);
    for recorder in recorders {
        records.extend_from_slice(&recorder.records)?;
    }
    Ok(records)
}
