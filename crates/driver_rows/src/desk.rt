// Two drivers, of which each makes the calls that lines name.
use crate::jobs::Begun;
use crate::line::Line;
use crate::names::Names;
use crate::told::{self, Text, both};
use crate::worked::Worked;
use driver_core::{Core, CoreAnswer, Flips};
use plain_driver::{Plain, PlainFlipped};
use std::alloc::{AllocError, Global};
use vd_status::Refusal;

/// The slow driver's history has no more items than this.
pub const MOST_ITEMS: u64 = 1_000_000;

/// The core and the slow driver, the names of their objects, how many items the history of their calls has, the jobs
/// that were begun, the last flips, and the picture that is decoded next.
#[derive(Drop)]
pub struct Desk {
    pub core: Core,
    pub plain: Plain,
    pub names: Names,
    pub items: u64,
    pub jobs: Vec<Begun>,
    pub flips: Flips,
    pub plain_flips: Vec<PlainFlipped>,
    pub worked: Worked,
}

impl Desk {
    pub fn new(alloc: Global) -> Result<Desk, AllocError> {
        Ok(Desk {
            core: Core::new(alloc)?,
            plain: Plain::new(alloc),
            names: Names::new(alloc),
            items: 0,
            jobs: Vec::new(alloc),
            flips: Flips::new(alloc)?,
            plain_flips: Vec::new(alloc),
            worked: Worked::new(alloc),
        })
    }

    /// Makes a call, if the line is one, and counts it, if it doesn't wait.
    pub fn call(&mut self, alloc: Global, line: Line<'_>) -> Result<Option<String>, AllocError> {
        if let Some(answer) = self.aside(alloc, line) {
            return Ok(Some(answer?));
        }
        let Some(answer) = self.answer(alloc, line) else {
            return Ok(None);
        };
        let answer = answer?;
        if answer.as_str() != "waits" && answer.as_str() != "no such job" {
            self.count();
        }
        Ok(Some(answer))
    }

    fn count(&mut self) {
        self.items = self.items.saturating_add(1);
        if self.plain.items < MOST_ITEMS {
            self.plain.count();
        }
    }

    fn answer(&mut self, alloc: Global, line: Line<'_>) -> Option<Text> {
        if let Some(answer) = self.device_answer(alloc, line) {
            return Some(answer);
        }
        if let Some(answer) = self.surface_answer(alloc, line) {
            return Some(answer);
        }
        if let Some(answer) = self.queue_answer(alloc, line) {
            return Some(answer);
        }
        self.job_answer(alloc, line)
    }
}

/// The answer of both drivers to a call that tells nothing.
pub fn done(alloc: Global, core: CoreAnswer<()>, plain: CoreAnswer<()>) -> Text {
    both(alloc, told::done(alloc, core), told::done(alloc, plain))
}

/// The answer of both drivers to a call that makes an object: the core's name.
pub fn named(
    alloc: Global,
    names: &mut Names,
    core: CoreAnswer<u32>,
    plain: Result<u32, Refusal>,
) -> Text {
    match (core, plain) {
        (CoreAnswer::Now(Ok(core)), Ok(plain)) => {
            names.note(core, plain)?;
            told::name(alloc, CoreAnswer::Now(Ok(core)))
        }
        _ => both(
            alloc,
            told::name(alloc, core),
            told::name(alloc, CoreAnswer::Now(plain)),
        ),
    }
}

/// The answer of a call of the slow driver that may wait.
pub fn or_later<T>(answer: Option<Result<T, Refusal>>) -> CoreAnswer<T> {
    match answer {
        Some(answer) => CoreAnswer::Now(answer),
        None => CoreAnswer::Later,
    }
}
