//! The access units of a file, and which of them are pictures that this decoder takes. H.264, 7.4.1.2 and Annex B.
#![tactic(auto)]

mod acceptor;
mod content;
mod depth;
mod giving;
mod hand;
mod laws;
mod looking;
mod pictures;
mod same_picture;
mod sets;
mod taking;

pub use acceptor::{Acceptor, Next, Unsettled};
pub use laws::{answers_are_one, sequences_have_one_set};
