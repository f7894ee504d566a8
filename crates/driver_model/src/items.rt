// The items of a history. No value of these types is made: they are there for proofs.
use crate::calls::Call;
use crate::replies::Answer;
use std::collections::LinkedList;
use vd_status::Refusal;

/// A call that was answered. Where it began a job, the reply is the answer of the job's end.
pub struct Entry {
    /// The number of the caller.
    pub caller: LinkedList<u64>,
    pub call: Call,
    pub reply: Result<Answer, Refusal>,
}

/// The job that this caller began at this place of the history has ended.
pub struct Mark {
    pub caller: LinkedList<u64>,
    pub place: u64,
}

/// One event of a history.
pub enum Item {
    Called(Entry),
    Ended(Mark),
}
