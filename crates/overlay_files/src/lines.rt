// Lines of a schedule as texts.
ghost use Rattle.std.specs.Prelude.{◌≡◌, ◌≢◌, ℕ, ◌<◌, ◌≤◌, List, ◌++◌, All, length, take, MatchOption, true};
ghost use Rattle.overlay_files.specs.declared.showing.Showing as declared;
ghost use Rattle.overlay_files.specs.Cues.{Cue, IsCue, IsName, IsShowing, IsWithout, cue};
ghost use Rattle.overlay_files.specs.ReadCues.{IsNumbered, IsSmall, MayFollow};
ghost use Rattle.overlay_files.specs.Schedules.{cue_text, numbers_of, numbers_text};

use super::fields::{find, read_field};
use super::showing::{Showing, showing_of};

/// The greatest number of lines of a schedule.
pub const MOST_LINES: usize = 256;

// The numbers of a line, and where the text behind them begins.
#[derive(Clone, Copy)]
struct Numbers {
    values: [u64; 5],
    end: usize,
}

// The line that the text is, without its line feed, where it may stand behind so many others.
pub(crate) fn read_line(count: usize, text: &[u8]) -> Option<(Showing, &str)>
    ensures { MatchOption result ((c : Cue) → MayFollow count c → text.now ≢ cue_text c) (λ l. MayFollow count (cue l.0 l.1.now) × (text.now ≡ cue_text (cue l.0 l.1.now))) }
{
    if count >= MOST_LINES {
        return None;
    }
    let Some(operands) = text.strip_prefix(b"show ") else {
        return None;
    };
    let Some(numbers) = read_numbers(operands) else {
        return None;
    };
    let Some(showing) = showing_of(numbers.values) else {
        return None;
    };
    let Some(name) = read_name(&operands[numbers.end..]) else {
        return None;
    };
    Some((showing, name))
}

// The five numbers that the text begins with, a space behind each.
fn read_numbers(text: &[u8]) -> Option<Numbers>
    ensures { MatchOption result ((ns rest : List ℕ) → length ns ≡ 5 → All IsSmall ns → text.now ≢ numbers_text ns ++ rest) (λ r. (length r.values ≡ 5) × IsNumbered text.now r.values r.end) }
{
    let mut values = [0; 5];
    let mut end = 0;
    for place in 0..5 {
        let Some(field) = read_field(&text[end..], b' ') else {
            return None;
        };
        values[place] = field.number;
        end += field.end;
    }
    Some(Numbers { values, end })
}

// The name that the text is.
fn read_name(text: &[u8]) -> Option<&str>
    ensures { MatchOption result (¬ IsName text.now) (λ name. IsName text.now × (name.now ≡ text.now)) }
{
    if text.is_empty() || text[0] == b'-' {
        return None;
    }
    if !lacks(text, b' ') || !lacks(text, b'\n') {
        return None;
    }
    match str::from_utf8(text) {
        Ok(name) => Some(name),
        Err(_) => None,
    }
}

// Whether the byte stands nowhere in the text.
fn lacks(text: &[u8], byte: u8) -> bool
    ensures yes { result ≡ true → IsWithout byte text.now }
    ensures no { IsWithout byte text.now → result ≡ true }
{
    find(text, byte) == text.len()
}
