//! What the names of a stream's objects stand for in the states of a shared driver, and that it stays: while others
//! call, and behind each own call that leaves it.
#![tactic(auto)]

mod laws;

pub use laws::{
    calls_find_what_is_held, calls_keep_what_is_held, items_keep_what_is_held,
    others_keep_what_is_held,
};
