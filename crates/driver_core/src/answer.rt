// What a call of the core answers.
use submission::Submission;
use vd_status::Refusal;

/// What a call answers: at once, or not yet.
#[derive(Clone, Copy)]
pub enum CoreAnswer<T> {
    /// It was done, or it was refused and nothing has changed.
    Now(Result<T, Refusal>),
    /// The call has to wait, and nothing has changed.
    Later,
}

/// What a call that begins a job answers.
#[derive(Drop)]
pub enum CoreBegin<J> {
    /// The job, which is to be run, and then to be ended on this driver.
    Job(J),
    /// It was refused and nothing has changed. The submission of a render comes back.
    Refused {
        submission: Option<Submission>,
        refusal: Refusal,
    },
    /// The call has to wait, and nothing has changed. The submission of a render comes back.
    Later(Option<Submission>),
}
