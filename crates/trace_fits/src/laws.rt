// What follows from the definitions.
ghost use Rattle.trace_fits.specs.Laws.{BytesBreakOnce, FrontsGo, RecordsLeadOneWay, TracesDontBreak, TracesHaveOneCount, WalksEndAtOnePlace};

/// A record leads a walk to one place at most, and so do several. Where records can come one behind the other, so
/// can those of each front.
pub fn records_lead_one_way()
    ensures one { RecordsLeadOneWay }
    ensures several { WalksEndAtOnePlace }
    ensures fronts { FrontsGo }
{}

/// Bytes go wrong at one offset at most, those of a trace at none; and a trace has one number of records.
pub fn bytes_break_once()
    ensures once { BytesBreakOnce }
    ensures nowhere { TracesDontBreak }
    ensures count { TracesHaveOneCount }
{}
