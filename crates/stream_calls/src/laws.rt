// What follows of the calls of a stream.
ghost use Rattle.stream_calls.specs.Laws.{CountsAreWorked, FeedingKeepsStreamCalls, NoCallsAreAStreams, StrangersAreWorked};

/// Who has made no calls yet has made those of the stream, whatever was fed and whatever others did.
pub fn no_calls_are_a_streams()
    ensures { NoCallsAreAStreams }
{}

/// The calls stay those of the stream when more of its file is fed, or its end.
pub fn feeding_keeps_stream_calls()
    ensures { FeedingKeepsStreamCalls }
{}

/// Worked cases of what counts.
pub fn calls_count()
    ensures { CountsAreWorked }
{}

/// Worked cases of what strangers call.
pub fn strangers_call()
    ensures { StrangersAreWorked }
{}
