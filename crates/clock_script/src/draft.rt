// A script while it is read.
ghost use Rattle.std.specs.Prelude.{◌≡◌, ◌<◌, ◌^◌, ◌++◌, ◌∷◌, [], ◌&&◌, nat_le, nat_lt, true, List, OnErr, OnOk, length};
ghost use Rattle.std.specs.List.{list_any};
ghost use Rattle.clock_script.specs.Script.{is_preemption_of, is_time, may_follow};

use super::script::{Script, ScriptLine};
use std::alloc::{AllocError, Global};
use std::marker::Model;

/// The greatest number of ticks of a script.
pub const MAX_TICKS: u32 = 1_000_000;

// The lines that were read, how many of them are ticks, and the times of the last tick and of the last
// line, 0 where there is none.
#[derive(Drop)]
pub(crate) struct Draft {
    lines: Vec<ScriptLine>,
    ticks: u32,
    last_tick: u64,
    last_time: u64,
}

impl Model for Draft {
    ghost use Rattle.std.specs.Prelude.{List};
    ghost use Rattle.clock_script.specs.declared.script.ScriptLine.{ScriptLine};
    ghost use Rattle.clock_script.specs.Draft.{Sums};

    ghost Value = { List ScriptLine };

    ghost view = { λ d. d.lines.items };

    ghost invariant = { λ d. Sums d.lines.items d.ticks d.last_tick d.last_time };
}

impl Draft {
    // No line was read.
    pub(crate) fn new(alloc: Global) -> Draft
        ensures { result ≡ [] }
    {
        Draft {
            lines: Vec::new(alloc),
            ticks: 0,
            last_tick: 0,
            last_time: 0,
        }
    }

    // How many lines were read.
    pub(crate) fn len(&self) -> usize
        ensures count { result ≡ length self.now }
        ensures bound { result < 2 ^ 63 }
    {
        self.lines.len()
    }

    // Whether the line may stand behind those that were read, in a script for so many streams.
    pub(crate) fn allows(&self, streams: u32, line: ScriptLine) -> bool
        ensures { result ≡ may_follow streams self.now line }
    {
        match line {
            ScriptLine::Tick(time) => {
                is_time(time)
                    && self.last_tick < time
                    && self.last_time <= time
                    && self.ticks < MAX_TICKS
            }
            ScriptLine::Preempt(time, stream) => {
                is_time(time)
                    && stream < streams
                    && self.last_time <= time
                    && !is_preempted(self.lines.as_slice(), stream)
            }
        }
    }

    // Takes a line that may stand there.
    pub(crate) fn push(&mut self, streams: u32, line: ScriptLine) -> Result<(), AllocError>
        requires { may_follow streams self.old line ≡ true }
        ensures ok { OnOk result (self.new ≡ self.old ++ line ∷ []) }
    {
        self.lines.push(line)?;
        match line {
            ScriptLine::Tick(time) => {
                self.ticks += 1;
                self.last_tick = time;
                self.last_time = time;
            }
            ScriptLine::Preempt(time, _) => self.last_time = time,
        }
        Ok(())
    }

    // The script of the lines that were read.
    pub(crate) fn finish(self) -> Script
        ensures { result ≡ self }
    {
        Script::of(self.lines)
    }
}

fn is_time(time: u64) -> bool
    ensures { result ≡ is_time time }
{
    1 <= time && time < 1 << 63
}

fn is_preempted(lines: &[ScriptLine], stream: u32) -> bool
    ensures { result ≡ list_any (is_preemption_of stream) lines.now }
{
    lines.iter().any(|line| preempts(*line, stream))
}

fn preempts(line: ScriptLine, stream: u32) -> bool
    ensures { result ≡ is_preemption_of stream line }
{
    match line {
        ScriptLine::Tick(_) => false,
        ScriptLine::Preempt(_, other) => other == stream,
    }
}
