// Numbers in a text, each ended by a byte that is no digit.
ghost use Rattle.std.specs.Prelude.{◌≡◌, ◌≢◌, ℕ, ◌<◌, ◌≤◌, ◌^◌, ◌∷◌, ◌++◌, List, length, drop, decimal, slice_index, MatchOption};
ghost use Rattle.overlay_files.specs.Ended.{IsEnded};

use super::numbers::read_number;

// A number, and where the text behind its end begins.
#[derive(Clone, Copy)]
pub(crate) struct Field {
    pub(crate) number: u64,
    pub(crate) end: usize,
}

// The number of 0 to 2^63 - 1 that the text begins with, where this byte ends it.
pub(crate) fn read_field(text: &[u8], ending: u8) -> Option<Field>
    requires { ending < 48 }
    ensures { MatchOption result ((n : ℕ) (rest : List ℕ) → n < 2 ^ 63 → text.now ≢ decimal n ++ ending ∷ rest) (λ f. IsEnded text.now ending f.number f.end) }
{
    let place = find(text, ending);
    if place == text.len() {
        return None;
    }
    let Some(number) = read_number(&text[..place]) else {
        return None;
    };
    Some(Field {
        number,
        end: place + 1,
    })
}

// The first place of the byte, or behind all where it isn't there.
pub(crate) fn find(text: &[u8], byte: u8) -> usize
    ensures within { result ≤ length text.now }
    ensures before { (k : ℕ) → k < result → slice_index text.now k ≢ byte }
    ensures there { result < length text.now → slice_index text.now result ≡ byte }
{
    for place in 0..text.len() {
        if text[place] == byte {
            return place;
        }
    }
    text.len()
}
