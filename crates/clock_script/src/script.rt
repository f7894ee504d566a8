// Scripts as lists of lines.
ghost use Rattle.std.specs.Prelude.{◌≡◌, ◌<◌, ◌==◌, length, IfOk};
ghost use Rattle.std.specs.List.{slice_index_or};

use std::alloc::{AllocError, Global};
use std::marker::Model;

/// A line of a script: what happens at a time, in nanoseconds.
#[derive(Clone, Copy, Debug, PartialEq, Eq)]
pub enum ScriptLine {
    /// The display's clock ticks.
    Tick(u64),
    /// The device of a stream, counted from 0, is preempted.
    Preempt(u64, u32),
}

/// A script: a list of lines, in their order.
#[derive(Drop)]
pub struct Script {
    lines: Vec<ScriptLine>,
}

impl Model for Script {
    ghost use Rattle.std.specs.Prelude.{List};
    ghost use Rattle.clock_script.specs.declared.script.ScriptLine.{ScriptLine};

    ghost Value = { List ScriptLine };

    ghost view = { λ s. s.lines.items };
}

impl Script {
    pub(crate) fn of(lines: Vec<ScriptLine>) -> Script
        ensures { result ≡ lines.items }
    {
        Script { lines }
    }

    /// The number of lines.
    pub fn len(&self) -> usize
        ensures { result ≡ length self.now }
    {
        self.lines.len()
    }

    /// Whether there is no line.
    pub fn is_empty(&self) -> bool
        ensures { result ≡ (length self.now == 0) }
    {
        self.lines.is_empty()
    }

    /// A line, counted from 0.
    pub fn line(&self, i: usize) -> ScriptLine
        requires { i < length self.now }
        ensures { result ≡ slice_index_or self.now i result }
    {
        self.lines[i]
    }

    /// An equal script.
    pub fn copy(&self, alloc: Global) -> Result<Script, AllocError>
        ensures { IfOk result (λ script. script ≡ self.now) }
    {
        Ok(Script {
            lines: Vec::from_slice(alloc, self.lines.as_slice())?,
        })
    }
}
