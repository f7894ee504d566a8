// Scripts from their texts.
ghost use Rattle.std.specs.Prelude.{◌≡◌, ◌≢◌, ℕ, ◌<◌, ◌≤◌, true, slice_index, length, IfOk, IfErr, MatchOption};
ghost use Rattle.clock_script.specs.Script.{may_follow};
ghost use Rattle.clock_script.specs.Reading.{Blames};
ghost use Rattle.clock_script.specs.Texts.{HaveOneAnswer, IsScript, ScriptsAreShort, line_text};
ghost use Rattle.clock_script.specs.declared.script.ScriptLine as declared;

use super::draft::Draft;
use super::lines::read_line;
use super::script::{Script, ScriptLine};
use std::alloc::Global;

/// Why a text isn't read as a script.
#[derive(Clone, Copy, Debug, PartialEq, Eq)]
pub enum ScriptFault {
    /// The line with this number, from 1, is the first that no script has there.
    Line(u64),
    /// There is no memory for the lines.
    OutOfMemory,
}

/// Reads a script for so many streams, whose numbers are counted from 0.
///
/// A script has lines `tick <ns>` and `preempt <ns> <stream>`, each ended by a line feed, which the last
/// line may lack. Numbers are in decimal without leading zeros, times from 1 to 2^63 - 1. Ticks rise, no
/// line is earlier than a preemption before it, and no preemption earlier than any line before it. A
/// stream is preempted once at most. There are 1,000,000 ticks at most.
pub fn read_script(alloc: Global, bytes: &[u8], streams: u32) -> Result<Script, ScriptFault>
    ensures ok { IfOk result (λ script. IsScript streams script bytes.now) }
    ensures err { IfErr result (λ fault. Blames streams bytes.now fault) }
{
    let mut draft = Draft::new(alloc);
    let mut at = 0;
    while at < bytes.len() {
        let rest = &bytes[at..];
        let end = find(rest, b'\n');
        let Some(line) = allowed_line(&draft, streams, &rest[..end]) else {
            return Err(ScriptFault::Line(draft.len() as u64 + 1));
        };
        if draft.push(streams, line).is_err() {
            return Err(ScriptFault::OutOfMemory);
        }
        if end == rest.len() {
            return Ok(draft.finish());
        }
        at += end + 1;
    }
    Ok(draft.finish())
}

// The first place of the byte, or behind all where it isn't there.
pub(crate) fn find(text: &[u8], byte: u8) -> usize
    ensures within { result ≤ length text.now }
    ensures before { (k : ℕ) → k < result → slice_index text.now k ≢ byte }
    ensures there { result < length text.now → slice_index text.now result ≡ byte }
{
    for place in 0..text.len() {
        if text[place] == byte {
            return place;
        }
    }
    text.len()
}

// The line that the text is, where it may stand behind those that were read.
fn allowed_line(draft: &Draft, streams: u32, text: &[u8]) -> Option<ScriptLine>
    ensures { MatchOption result ((line : declared.ScriptLine) → may_follow streams draft.now line ≡ true → text.now ≢ line_text line) (λ line. (may_follow streams draft.now line ≡ true) × (text.now ≡ line_text line)) }
{
    let line = read_line(text)?;
    if draft.allows(streams, line) {
        Some(line)
    } else {
        None
    }
}

/// A text has one answer for so many streams: the lines of one script, or one first line that no script has.
pub fn have_one_answer(streams: u32)
    ensures { HaveOneAnswer streams }
{
    let _streams = streams;
}

/// A script for 16 streams has at most 25,000,496 bytes, so that a longer text has a line that no script
/// has.
pub fn scripts_are_short()
    ensures { ScriptsAreShort }
{}
