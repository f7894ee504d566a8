//! The pictures of a file, decoded one after the other, from its bytes as they come.
#![tactic(auto)]

mod stream_decoder;

pub use stream_decoder::{DecodedPicture, Step, StreamDecoder};
