// The words of a line, and what they stand for.
use hex::FromHexError;
use std::alloc::{AllocError, Global};

/// The text of an answer, if there is memory for it.
pub type Text = Result<String, AllocError>;

/// The word that names a call, and up to four words behind it. Each ends at a space. One that is missing is empty.
#[derive(Clone, Copy)]
pub struct Line<'a> {
    pub name: &'a str,
    pub words: [&'a str; 4],
}

impl Line<'_> {
    /// The words of a text.
    pub fn read(text: &str) -> Line<'_> {
        let (name, text) = split(text);
        let (first, text) = split(text);
        let (second, text) = split(text);
        let (third, text) = split(text);
        let (fourth, _) = split(text);
        Line {
            name,
            words: [first, second, third, fourth],
        }
    }
}

fn split(text: &str) -> (&str, &str) {
    match text.split_once(' ') {
        Some(parts) => parts,
        None => (text, ""),
    }
}

/// The number that a word is. The greatest stands for a word that isn't one.
pub fn number(word: &str) -> u32 {
    word.parse().unwrap_or(u32::MAX)
}

/// The bytes that a word spells in hex. There are none where it doesn't.
pub fn bytes_of(alloc: Global, word: &str) -> Result<Vec<u8>, AllocError> {
    match hex::decode(alloc, word) {
        Ok(bytes) => Ok(bytes),
        Err(FromHexError::OutOfMemory) => Err(AllocError),
        Err(_) => Ok(Vec::new(alloc)),
    }
}

/// The text of a script: a bar stands for the end of a line, and a wave for a space.
pub fn script_of(alloc: Global, word: &str) -> Result<Vec<u8>, AllocError> {
    let mut bytes = Vec::new(alloc);
    for byte in word.bytes() {
        bytes.push(match byte {
            b'|' => b'\n',
            b'~' => b' ',
            other => other,
        })?;
    }
    Ok(bytes)
}
