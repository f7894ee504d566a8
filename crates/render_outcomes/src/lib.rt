//! What renders and mixes come to exists: laws for those who speak of an outcome before it is computed.
//!
//! Each law gives values, not only that there are some.
#![tactic(auto)]

mod bytes;
mod renders;

pub use bytes::{mixed_bytes_exist, packed_pictures_exist};
pub use renders::{decoded_pictures_exist, outcomes_exist, slices_are_constructed_or_stop};
