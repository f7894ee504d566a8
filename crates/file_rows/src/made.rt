// Streams that are made from a number.
use crate::line::Text;
use cb_maker::make;
use std::alloc::Global;

/// How many bytes the stream has that is made from this number, and their sum: at each byte it is taken 31 times, and
/// the byte is added, modulo 2^32.
pub fn made(alloc: Global, number: u32) -> Text {
    let bytes = make(alloc, number)?;
    let count = bytes.len();
    let sum = summed(&bytes);
    format!(in alloc; "{count} bytes, sum {sum}")
}

fn summed(bytes: &[u8]) -> u32 {
    let mut sum: u32 = 0;
    for byte in bytes {
        sum = sum.wrapping_mul(31).wrapping_add(u32::from(*byte));
    }
    sum
}
