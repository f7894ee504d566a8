//! From the slice units of a picture to its samples, or to the first unit that is at fault. H.264, clauses 7 and 8.
#![tactic(auto)]

mod construction;
mod decoding;
mod fitting;
mod halves;
mod laws;
mod outcome;
mod parsing;
mod prepared;
mod submission;

pub use laws::{
    outcomes_are_unique, outcomes_do_not_ask_names, renamed_infos_are_accepted,
    submissions_have_one_reading,
};
pub use outcome::Outcome;
pub use prepared::Prepared;
