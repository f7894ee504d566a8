// Ticks, and the two jobs: they are begun, and run and ended later.
use crate::desk::{Desk, MOST_ITEMS, done, or_later};
use crate::line::{Line, argument};
use crate::pictures::{Asked, by_number};
use crate::told::{self, Text, both};
use driver_core::CoreAnswer::{Later, Now};
use driver_core::{CoreAnswer, CoreBegin, CoreMix, CoreRender};
use std::alloc::Global;

/// A job of the core.
#[derive(Drop)]
pub enum Job {
    Mix(CoreMix),
    Render(CoreRender),
}

/// A job that this caller has begun, at this place of the history, and what the slow driver answered then.
#[derive(Drop)]
pub struct Begun {
    caller: u64,
    place: u64,
    job: Job,
    answer: CoreAnswer<()>,
}

impl Desk {
    /// Makes a call that ticks a clock, or begins or ends a job, if the line is one.
    pub fn job_answer(&mut self, alloc: Global, line: Line<'_>) -> Option<Text> {
        let [first, second, third, fourth, fifth] = line.numbers;
        let a = argument(first);
        let b = argument(second);
        let c = argument(third);
        let d = argument(fourth);
        let e = argument(fifth);
        match line.name {
            "advance" => Some(self.advance(alloc, a, second)),
            "mix" => Some(self.mix(alloc, first, [b, c, d, e])),
            "render" => Some(self.render_by_number(alloc, first, [b, c, d], fifth)),
            "decode" => Some(self.decode(alloc, [a, b, c, d, e])),
            _ => None,
        }
    }

    fn advance(&mut self, alloc: Global, device: u32, time: u64) -> Text {
        let on = self.names.plain(device);
        let core = self.core.advance(alloc, device, time, &mut self.flips);
        let plain = match self.plain.advance(alloc, on, time) {
            Some(Ok(flips)) => {
                self.plain_flips = flips;
                Now(Ok(()))
            }
            Some(Err(refusal)) => Now(Err(refusal)),
            None => Later,
        };
        match (core, plain) {
            (Now(Ok(())), Now(Ok(()))) => self.shown(alloc),
            _ => done(alloc, core, plain),
        }
    }

    fn mix(&mut self, alloc: Global, caller: u64, arguments: [u32; 4]) -> Text {
        let [mixer, structure, video, output] = arguments;
        let by = self.names.plain(mixer);
        let from = self.names.plain(video);
        let to = self.names.plain(output);
        let notes = self.plain.notes.len();
        let plain = or_later(self.plain.mix(alloc, &[caller], by, structure, from, to));
        let begun = self.begun(alloc, notes, plain);
        let core = match self.core.begin_mix(alloc, mixer, structure, video, output) {
            CoreBegin::Job(job) => self.begin(alloc, caller, Job::Mix(job), plain),
            CoreBegin::Refused { refusal, .. } => told::refused(alloc, refusal),
            CoreBegin::Later(_) => told::waits(alloc),
        };
        both(alloc, core, begun)
    }

    // A render of a picture by its number. A number above 4 is also the name of its reference.
    fn render_by_number(
        &mut self,
        alloc: Global,
        caller: u64,
        names: [u32; 3],
        value: u64,
    ) -> Text {
        let [decoder, target, number] = names;
        let missing = match self.plain.video_parameters(self.names.plain(target)) {
            Ok(size) => (size.width / 16)
                .saturating_mul(size.height / 16)
                .saturating_sub(1),
            Err(_) => 0,
        };
        let asked = by_number(alloc, number, value.clamp(1, 255) as u8, missing)?;
        self.render(alloc, caller, [decoder, target, number], asked)
    }

    // A render of the slices that lines have given, for the caller 0.
    fn decode(&mut self, alloc: Global, arguments: [u32; 5]) -> Text {
        let [decoder, target, kind, slices, reference] = arguments;
        let size = self.plain.video_parameters(self.names.plain(target));
        let asked = self.worked.asked(alloc, size, kind, slices)?;
        self.render(alloc, 0, [decoder, target, reference], asked)
    }

    fn render(&mut self, alloc: Global, caller: u64, names: [u32; 3], asked: Asked) -> Text {
        let [decoder, target, reference] = names;
        let by = self.names.plain(decoder);
        let to = self.names.plain(target);
        let info = asked.info(reference);
        let plain_info = asked.info(self.names.plain(reference));
        let notes = self.plain.notes.len();
        let plain = or_later(
            self.plain.render(
                alloc,
                &[caller],
                by,
                to,
                &plain_info,
                asked.units,
                asked.outcome,
                asked.picture,
            ),
        );
        let begun = self.begun(alloc, notes, plain);
        let core = match self
            .core
            .begin_render(alloc, decoder, target, &info, asked.submission)
        {
            CoreBegin::Job(job) => self.begin(alloc, caller, Job::Render(job), plain),
            CoreBegin::Refused { refusal, .. } => told::refused(alloc, refusal),
            CoreBegin::Later(_) => told::waits(alloc),
        };
        both(alloc, core, begun)
    }

    // What the slow driver says where a job was to begin. It had so many notes of jobs before.
    fn begun(&self, alloc: Global, notes: usize, answer: CoreAnswer<()>) -> Text {
        if self.plain.notes.len() > notes {
            told::begun(alloc)
        } else {
            told::done(alloc, answer)
        }
    }

    fn begin(&mut self, alloc: Global, caller: u64, job: Job, answer: CoreAnswer<()>) -> Text {
        let place = self.items;
        self.jobs.push(Begun {
            caller,
            place,
            job,
            answer,
        })?;
        told::begun(alloc)
    }

    /// Runs a job, and ends it: an item of its own. The slow driver has answered at its beginning what the end answers.
    pub fn end(&mut self, alloc: Global, caller: u64, place: u64) -> Text {
        let is_noted = self.plain.items < MOST_ITEMS && self.plain.end(&[caller], place);
        let Some(index) = self
            .jobs
            .iter()
            .position(|begun| begun.caller == caller && begun.place == place)
        else {
            return both(
                alloc,
                told::no_job(alloc),
                ended(alloc, is_noted, Now(Ok(()))),
            );
        };
        let Begun { job, answer, .. } = self.jobs.remove(index);
        let core = match job {
            Job::Mix(job) => self.core.end_mix(job.run()),
            Job::Render(job) => self.core.end_render(job.run()),
        };
        self.items = self.items.saturating_add(1);
        let plain = ended(alloc, is_noted, answer);
        both(alloc, told::done(alloc, core), plain)
    }
}

// What the slow driver says to the end of a job.
fn ended(alloc: Global, is_noted: bool, answer: CoreAnswer<()>) -> Text {
    if is_noted {
        told::done(alloc, answer)
    } else {
        told::no_job(alloc)
    }
}
