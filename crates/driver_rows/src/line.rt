// The words of a line.

/// A line's first word, what is behind it, and the numbers there. Each word ends at a space. A number that is missing
/// or isn't one is the greatest there is.
#[derive(Clone, Copy)]
pub struct Line<'a> {
    pub name: &'a str,
    pub rest: &'a str,
    pub numbers: [u64; 5],
}

impl Line<'_> {
    /// The words of a text.
    pub fn read(text: &str) -> Line<'_> {
        let (name, rest) = split(text);
        let (first, text) = split(rest);
        let (second, text) = split(text);
        let (third, text) = split(text);
        let (fourth, text) = split(text);
        let (fifth, _) = split(text);
        Line {
            name,
            rest,
            numbers: [
                number(first),
                number(second),
                number(third),
                number(fourth),
                number(fifth),
            ],
        }
    }
}

/// The first word of a text, and what is behind it.
pub fn split(text: &str) -> (&str, &str) {
    match text.split_once(' ') {
        Some(parts) => parts,
        None => (text, ""),
    }
}

fn number(word: &str) -> u64 {
    word.parse().unwrap_or(u64::MAX)
}

/// The number as a handle or another argument, which has 32 bits.
pub fn argument(number: u64) -> u32 {
    u32::try_from(number).unwrap_or(u32::MAX)
}
