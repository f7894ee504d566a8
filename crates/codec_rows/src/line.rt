// The words of a line, and what they stand for.
use hex::{FromHex, FromHexError};
use std::alloc::{AllocError, Global};

/// The word that names a call, and up to eight words behind it. Each ends at a space. One that is missing is empty.
#[derive(Clone, Copy)]
pub struct Line<'a> {
    pub name: &'a str,
    pub words: [&'a str; 8],
}

impl Line<'_> {
    /// The words of a text.
    pub fn read(text: &str) -> Line<'_> {
        let (name, text) = split(text, ' ');
        let (first, text) = split(text, ' ');
        let (second, text) = split(text, ' ');
        let (third, text) = split(text, ' ');
        let (fourth, text) = split(text, ' ');
        let (fifth, text) = split(text, ' ');
        let (sixth, text) = split(text, ' ');
        let (seventh, text) = split(text, ' ');
        let (eighth, _) = split(text, ' ');
        Line {
            name,
            words: [first, second, third, fourth, fifth, sixth, seventh, eighth],
        }
    }
}

/// A text up to this character, and what stands behind it.
pub fn split(text: &str, at: char) -> (&str, &str) {
    match text.split_once(at) {
        Some(parts) => parts,
        None => (text, ""),
    }
}

/// The number that a word is. The greatest stands for a word that isn't one.
pub fn number(word: &str) -> u32 {
    word.parse().unwrap_or(u32::MAX)
}

/// The same with a sign.
pub fn signed(word: &str) -> i32 {
    word.parse().unwrap_or(i32::MAX)
}

/// A place along a side, with a sign.
pub fn place(word: &str) -> i64 {
    word.parse().unwrap_or(0)
}

/// The bytes that a word spells in hex. There are none where it doesn't.
pub fn bytes_of(alloc: Global, word: &str) -> Result<Vec<u8>, AllocError> {
    match hex::decode(alloc, word) {
        Ok(bytes) => Ok(bytes),
        Err(FromHexError::OutOfMemory) => Err(AllocError),
        Err(_) => Ok(Vec::new(alloc)),
    }
}

/// The four bytes that a word spells in hex, if it does.
pub fn four(word: &str) -> Option<[u8; 4]> {
    <[u8; 4] as FromHex>::from_hex(word).ok()
}

/// The same of eight.
pub fn eight(word: &str) -> Option<[u8; 8]> {
    <[u8; 8] as FromHex>::from_hex(word).ok()
}

/// The same of sixteen.
pub fn sixteen(word: &str) -> Option<[u8; 16]> {
    <[u8; 16] as FromHex>::from_hex(word).ok()
}
