// Schedules as lists of lines.
ghost use Rattle.std.specs.Prelude.{◌≡◌, ◌<◌, ◌==◌, ◌++◌, ◌∷◌, [], OnOk, length};
ghost use Rattle.overlay_files.specs.Cues.{cue, cue_at};

use super::showing::Showing;
use std::alloc::{AllocError, Global};
use std::marker::Model;

/// What overlays a run shows: a list of lines, each with a bitmap's name.
#[derive(Drop)]
pub struct Schedule {
    lines: Vec<Line>,
}

impl Model for Schedule {
    ghost use Rattle.std.specs.Prelude.{List};
    ghost use Rattle.overlay_files.specs.Cues.{Cue};

    ghost Value = { List Cue };

    ghost view = { λ s. s.lines.items };
}

// A line of a schedule.
#[derive(Drop)]
struct Line {
    showing: Showing,
    name: String,
}

impl Model for Line {
    ghost use Rattle.std.specs.Prelude.{string_bytes};
    ghost use Rattle.overlay_files.specs.Cues.{Cue, cue};

    ghost Value = { Cue };

    ghost view = { λ l. cue l.showing (string_bytes l.name) };
}

impl Line {
    fn showing(&self) -> Showing
        ensures { result ≡ self.now.showing }
    {
        self.showing
    }

    fn name(&self) -> &str
        ensures { result.now ≡ self.now.name }
    {
        self.name.as_str()
    }
}

impl Schedule {
    // No line was read.
    pub(crate) fn new(alloc: Global) -> Schedule
        ensures { result ≡ [] }
    {
        Schedule {
            lines: Vec::new(alloc),
        }
    }

    // Takes one more line.
    pub(crate) fn push(
        &mut self,
        alloc: Global,
        showing: Showing,
        name: &str,
    ) -> Result<(), AllocError>
        ensures ok { OnOk result (self.new ≡ self.old ++ cue showing name.now ∷ []) }
    {
        let name = String::from_str(alloc, name)?;
        self.lines.push(Line { showing, name })?;
        Ok(())
    }

    /// The number of lines.
    pub fn len(&self) -> usize
        ensures { result ≡ length self.now }
    {
        self.lines.len()
    }

    /// Whether there is no line.
    pub fn is_empty(&self) -> bool
        ensures { result ≡ (length self.now == 0) }
    {
        self.lines.is_empty()
    }

    /// The name of the bitmap's file of a line, which is counted from 0.
    pub fn name(&self, i: usize) -> &str
        requires { i < length self.now }
        ensures { result.now ≡ (cue_at self.now i).name }
    {
        let line = &self.lines[i];
        line.name()
    }

    /// When and where the bitmap of a line is shown, which is counted from 0.
    pub fn showing(&self, i: usize) -> Showing
        requires { i < length self.now }
        ensures { result ≡ (cue_at self.now i).showing }
    {
        let line = &self.lines[i];
        line.showing()
    }
}
