//! The reference lists of P slices. H.264, 8.2.4.
#![tactic(auto)]

mod edits;
mod list;
mod order;

pub use list::{RefList, list_for};
