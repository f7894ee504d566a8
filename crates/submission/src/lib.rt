//! A picture's slice units as a caller hands them to a decoder.
#![tactic(auto)]

mod submission;

pub use submission::{MAX_SUBMISSION, Submission, SubmissionFault};
