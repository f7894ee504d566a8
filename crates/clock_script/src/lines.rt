// Lines of a script as texts.
ghost use Rattle.std.specs.Prelude.{◌≡◌, ◌≢◌, ℕ, ◌∷◌, ◌++◌, decimal, MatchOption};
ghost use Rattle.clock_script.specs.Lines.{IsInRange, IsPreemptionOf, IsTickOf, preemption};
ghost use Rattle.clock_script.specs.Texts.{line_text};
ghost use Rattle.clock_script.specs.declared.script.ScriptLine as declared;
ghost use Rattle.clock_script.specs.declared.script.ScriptLine.TheVariants.{Preempt, Tick};

use super::numbers::read_number;
use super::reading::find;
use super::script::ScriptLine;

// The line that the text is, without its line feed.
pub(crate) fn read_line(text: &[u8]) -> Option<ScriptLine>
    ensures { MatchOption result ((line : declared.ScriptLine) → IsInRange line → text.now ≢ line_text line) (λ line. IsInRange line × (text.now ≡ line_text line)) }
{
    if let Some(time) = text.strip_prefix(b"tick ") {
        read_tick(time)
    } else if let Some(operands) = text.strip_prefix(b"preempt ") {
        read_preemption(operands)
    } else {
        None
    }
}

// A tick, from its time.
fn read_tick(text: &[u8]) -> Option<ScriptLine>
    ensures { MatchOption result ((time : ℕ) → IsInRange (Tick time) → text.now ≢ decimal time) (λ line. IsTickOf line text.now) }
{
    let time = read_number(text)?;
    Some(ScriptLine::Tick(time))
}

// A preemption, from its time and stream.
fn read_preemption(text: &[u8]) -> Option<ScriptLine>
    ensures { MatchOption result ((time stream : ℕ) → IsInRange (Preempt time stream) → text.now ≢ decimal time ++ 32 ∷ decimal stream) (λ line. IsPreemptionOf line text.now) }
{
    let space = find(text, b' ');
    if space == text.len() {
        return None;
    }
    preemption(read_number(&text[..space]), read_number(&text[space + 1..]))
}

// A preemption at a time of a stream, where there are both and the stream's number has 32 bits.
fn preemption(time: Option<u64>, stream: Option<u64>) -> Option<ScriptLine>
    ensures { result ≡ preemption time stream }
{
    match (time, stream) {
        (Some(time), Some(stream)) if stream < 1 << 32 => {
            Some(ScriptLine::Preempt(time, stream as u32))
        }
        _ => None,
    }
}
