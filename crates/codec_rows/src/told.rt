// What is written for an answer.
use std::alloc::{AllocError, Global};
use std::fmt::Debug;

/// The text of an answer, if there is memory for it.
pub type Text = Result<String, AllocError>;

/// An answer as Rust writes a value of its type. A call that finds nothing, or whose arguments don't fit, has none.
pub fn shown<T: Debug + Drop>(alloc: Global, answer: Option<T>) -> Text {
    match answer {
        Some(value) => format!(in alloc; "{value:?}"),
        None => format!(in alloc; "none"),
    }
}

/// Bytes in hex.
pub fn in_hex(alloc: Global, bytes: &[u8]) -> Text {
    hex::encode(alloc, bytes)
}

/// A block in hex, if there is one.
pub fn hex_or_none<const N: usize>(alloc: Global, block: &Option<[u8; N]>) -> Text {
    match block {
        Some(block) => in_hex(alloc, block),
        None => format!(in alloc; "none"),
    }
}

/// Bytes that are one byte so many times, or so many of them again and again, and else all of them, in hex.
pub fn repeated(alloc: Global, bytes: &[u8], many: usize) -> Text {
    if is_repeated(bytes, 1) {
        return times(alloc, bytes, 1);
    }
    if is_repeated(bytes, many) {
        return times(alloc, bytes, many);
    }
    in_hex(alloc, bytes)
}

fn is_repeated(bytes: &[u8], many: usize) -> bool {
    let count = bytes.len();
    many <= count && bytes[many..] == bytes[..count - many]
}

fn times(alloc: Global, bytes: &[u8], many: usize) -> Text {
    if many < 1 || many > bytes.len() {
        return format!(in alloc; "none");
    }
    let times = bytes.len() / many;
    let first = in_hex(alloc, &bytes[..many])?;
    format!(in alloc; "{times} times {first}")
}
