//! Nodes that stand in two lists at once: in a queue's and in a holder's.
//!
//! [`Links`] takes all its memory when it is made. From then on a node is linked, found and unlinked
//! without memory, and without a walk along any list.
#![tactic(auto)]

mod links;
mod rings;

pub use links::Links;
