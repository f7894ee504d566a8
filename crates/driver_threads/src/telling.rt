// What is written for an answer.
use std::alloc::{AllocError, Global};
use vd_status::Refusal;

/// The answer of a call that tells nothing.
pub fn done(alloc: Global, answer: Result<(), Refusal>) -> Result<String, AllocError> {
    match answer {
        Ok(()) => format!(in alloc; "done"),
        Err(refusal) => format!(in alloc; "{refusal}"),
    }
}

/// Bytes that a call has told: how many, the first four, and whether these repeat.
pub fn bytes(
    alloc: Global,
    answer: Result<(), Refusal>,
    bytes: &[u8],
) -> Result<String, AllocError> {
    if let Err(refusal) = answer {
        return format!(in alloc; "{refusal}");
    }
    let count = bytes.len();
    match bytes {
        [a, b, c, d, rest @ ..] => {
            let how = if bytes.starts_with(rest) {
                "each four"
            } else {
                "at first"
            };
            format!(in alloc; "{count} bytes, {how} {a} {b} {c} {d}")
        }
        _ => format!(in alloc; "{count} bytes"),
    }
}
