// What follows from the definitions.
ghost use Rattle.trace_records.specs.Laws.{RecordsAreLong, RecordsHaveTheirBytes, TracesGoOn};

/// A further item adds its records behind those of the items before it, at the place that it has.
pub fn traces_go_on()
    ensures { TracesGoOn }
{}

/// Bytes that begin with a record begin with no other, and each record has 48 of them.
pub fn records_have_their_bytes()
    ensures own { RecordsHaveTheirBytes }
    ensures long { RecordsAreLong }
{}
