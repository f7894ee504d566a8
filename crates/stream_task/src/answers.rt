// What a step answers.
use driver::Wish;
use stream_course::Ending;

/// How a stream ends.
#[derive(Clone, Copy, Debug, PartialEq, Eq)]
pub enum Verdict {
    /// All of its file is accepted.
    Accepted,
    /// The access unit at this place of the file isn't accepted.
    Bad { offset: u64 },
    /// The first access unit that isn't accepted has a sequence set of larger pictures than this decoder takes.
    Large,
    /// The script preempts the stream, or its device is no longer its own.
    Preempted,
}

/// What a step of a stream's task answers.
#[derive(Debug, Drop)]
pub enum Stepped {
    /// The task has made a call, and may go on.
    Moved,
    /// The task can't go on before this wish holds, which didn't hold when it was asked.
    Blocked(Wish),
    /// More bytes are wanted, or the end, behind the `at` bytes that were fed.
    Hungry { at: u64 },
    /// The stream has ended.
    Done(Verdict),
    /// There was no room in the driver for a further object: so many live, and so many were ever made.
    Full { live: u32, given: u64 },
    /// There was no memory.
    OutOfMemory,
}

/// The verdict on a stream whose pictures end so, by a script that preempts it or doesn't.
pub fn verdict_of(preempts: bool, ending: Ending) -> Verdict {
    if preempts {
        return Verdict::Preempted;
    }
    match ending {
        Ending::Whole => Verdict::Accepted,
        Ending::Refused { large: true, .. } => Verdict::Large,
        Ending::Refused { offset, .. } => Verdict::Bad { offset },
    }
}
