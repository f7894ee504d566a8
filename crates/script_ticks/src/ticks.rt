// The places of lines in a script.
ghost use Rattle.std.specs.Prelude.{◌≡◌, drop, position};
ghost use Rattle.clock_script.specs.Script.{is_preemption_of};
ghost use Rattle.script_ticks.specs.Ticks.{first_tick, first_tick_at};

use clock_script::{Script, ScriptLine};

/// A tick of a script: the number of its line, from 0, and its time.
#[derive(Clone, Copy, Debug, PartialEq, Eq)]
pub struct ScriptTick {
    pub line: usize,
    pub time: u64,
}

/// The first tick at this time or after it, of the lines from the one with this number on.
pub fn tick_from(script: &Script, from: usize, time: u64) -> Option<ScriptTick>
    ensures { result ≡ first_tick time from (drop from script.now) }
{
    for line in from..script.len() {
        if let Some(tick) = tick_at(script.line(line), line, time) {
            return Some(tick);
        }
    }
    None
}

// The tick that this line is, if its time has come.
fn tick_at(line: ScriptLine, number: usize, time: u64) -> Option<ScriptTick>
    ensures { result ≡ first_tick_at time number line }
{
    match line {
        ScriptLine::Tick(ticks) if time <= ticks => Some(ScriptTick {
            line: number,
            time: ticks,
        }),
        _ => None,
    }
}

/// The number of the line, from 0, that preempts the stream, if one does.
pub fn preemption_of(script: &Script, stream: u32) -> Option<usize>
    ensures { result ≡ position (is_preemption_of stream) script.now }
{
    for line in 0..script.len() {
        if preempts(script.line(line), stream) {
            return Some(line);
        }
    }
    None
}

fn preempts(line: ScriptLine, stream: u32) -> bool
    ensures { result ≡ is_preemption_of stream line }
{
    match line {
        ScriptLine::Tick(_) => false,
        ScriptLine::Preempt(_, other) => other == stream,
    }
}
