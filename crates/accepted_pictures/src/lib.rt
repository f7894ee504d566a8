//! The accepted pictures of a file, with the samples that they come to, in definitions, and what its bytes settle of
//! them.
#![tactic(auto)]

mod laws;

pub use laws::{files_have_one_reading, one_thing_comes_next, settled_pictures_stay};
