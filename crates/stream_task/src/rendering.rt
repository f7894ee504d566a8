// The rendering of a picture, and what is made for it before.
ghost use Rattle.std.specs.Prelude.{◌≡◌, ◌≢◌, ◌<◌, ℕ, Some, List};
ghost use Rattle.access_units.specs.Pictures.{Picture};
ghost use Rattle.accepted_pictures.specs.Files.{Decoded};
ghost use Rattle.driver.specs.Passes.{IsOf, view};
ghost use Rattle.stream_calls.specs.StreamCalls.{Fed, Stream};
ghost use Rattle.stream_course.specs.Standing as course;
ghost use Rattle.stream_course.specs.Way.{Way};
ghost use Rattle.stream_task.specs.Keeping.{HasBoth, Ready};
ghost use Rattle.stream_task.specs.Leaving.{IsRendered, Went, with_phase};
ghost use Rattle.stream_task.specs.Renaming.{name_or, renamed_entry, renamed_to};
ghost use Rattle.stream_task.specs.Surfaces.{surface_of};
ghost use Rattle.stream_task.specs.declared.phase.Phase.TheVariants as phase;

use crate::answers::Stepped;
use crate::objects::{Made, Place};
use crate::phase::Phase;
use crate::slots::NUMBERS;
use crate::task::StreamTask;
use access_units::Unsettled;
use cb_types::{PictureInfo, Reference};
use driver::{Answered, BeginRender, Driver, Pass};
use std::alloc::Global;
use std::sync::Wait;
use std::thread::Threads;
use vd_outside::OpenGate;

impl StreamTask {
    // Renders the picture into this video surface, or makes one of the objects that this needs.
    pub(crate) fn render<R: Wait + Threads + Sync>(
        &mut self,
        rt: &R,
        alloc: Global,
        driver: &Driver,
        pass: Pass,
        picture: Unsettled,
        surface: usize,
    ) -> (Pass, Stepped)
        requires of { IsOf pass driver.now }
        requires ready { (of : Stream) × ((fed : Fed) × Ready (with_phase self.old (phase.Rendering picture surface)) of fed (view pass)) }
        ensures of { IsOf result.0 driver.now }
        ensures went { (of : Stream) (fed : Fed) → Ready (with_phase self.old (phase.Rendering picture surface)) of fed (view pass) → Went self.new of fed (view pass) (view result.0) result.1 }
    {
        let size = picture.size;
        let Some(device) = self.objects.device else {
            self.phase = Phase::Rendering { picture, surface };
            return self.make_device(rt, alloc, driver, pass);
        };
        if self.objects.queue.is_none() {
            self.phase = Phase::Rendering { picture, surface };
            return self.make_queue(rt, alloc, driver, pass, device);
        }
        let Some(decoder) = self.fitting(Place::Decoder, size) else {
            self.phase = Phase::Rendering { picture, surface };
            return self.fit(rt, alloc, driver, pass, device, Place::Decoder, size);
        };
        let Some(video) = self.fitting(Place::Video(surface), size) else {
            self.phase = Phase::Rendering { picture, surface };
            return self.fit(rt, alloc, driver, pass, device, Place::Video(surface), size);
        };
        self.begin(rt, alloc, driver, pass, decoder, video, picture, surface)
    }

    // Renders the picture with this decoder into this video surface, which is the one in the place.
    fn begin<R: Wait + Threads + Sync>(
        &mut self,
        rt: &R,
        alloc: Global,
        driver: &Driver,
        pass: Pass,
        decoder: u32,
        video: u32,
        picture: Unsettled,
        surface: usize,
    ) -> (Pass, Stepped)
        requires of { IsOf pass driver.now }
        requires ready { (of : Stream) × ((fed : Fed) × Ready (with_phase self.old (phase.Rendering picture surface)) of fed (view pass)) }
        requires there { HasBoth self.old picture surface decoder video }
        ensures of { IsOf result.0 driver.now }
        ensures went { (of : Stream) (fed : Fed) → Ready (with_phase self.old (phase.Rendering picture surface)) of fed (view pass) → Went self.new of fed (view pass) (view result.0) result.1 }
    {
        let info = self.renamed(&picture.begun.info, decoder);
        let Unsettled {
            offset,
            begun,
            size,
            depth,
            references,
            submission,
        } = picture;
        match driver.begin_render(rt, alloc, pass, decoder, video, &info, submission) {
            BeginRender::Job(job) => {
                let done = job.run_at_once(rt, &mut OpenGate);
                let Answered { pass, result, .. } = driver.end_render(rt, done);
                self.phase = Phase::Asking;
                self.rendered(offset, begun.frame, surface, result.is_ok());
                (pass, Stepped::Moved)
            }
            BeginRender::Refused {
                pass,
                submission,
                refusal,
                place: _,
            } => {
                let picture = Unsettled {
                    offset,
                    begun,
                    size,
                    depth,
                    references,
                    submission,
                };
                self.phase = Phase::Rendering { picture, surface };
                let answer = self.refused(refusal);
                (pass, answer)
            }
        }
    }

    // The picture was rendered, and came to a whole one or didn't.
    fn rendered(&mut self, offset: u64, frame: u32, surface: usize, whole: bool)
        requires frame { frame < NUMBERS }
        requires surface { surface < 34 }
        requires apart { (other : ℕ) → other < NUMBERS → other ≢ frame → surface_of self.old.slots other ≢ surface }
        requires given { (of : Stream) × ((way : Way) × ((picture : Picture) × course.StandsFor self.old.course of way × (way.given ≡ Some picture))) }
        ensures { (of : Stream) (way : Way) (one : Decoded) → course.StandsFor self.old.course of way → way.given ≡ Some one.picture → offset ≡ one.picture.offset →
            IsRendered self.old self.new of way one (record { frame = frame; surface = surface; whole = whole }) }
    {
        if whole {
            self.slots
                .decoded(frame as usize, surface, self.course.decoded());
        }
        self.course.settle(offset, whole);
    }

    // The info whose references name the surfaces of their own numbers. There `decoder` stands for a surface that
    // wasn't made, which no reference names.
    fn renamed(&self, info: &PictureInfo, decoder: u32) -> PictureInfo
        ensures { result ≡ renamed_to (name_or self.now.slots self.now.objects decoder) info.now }
    {
        let mut references = info.references;
        for place in 0..16 {
            references[place] = self.renamed_entry(info.references[place], decoder);
        }
        let mut info = *info;
        info.references = references;
        info
    }

    fn renamed_entry(&self, entry: Reference, decoder: u32) -> Reference
        ensures { result ≡ renamed_entry (name_or self.now.slots self.now.objects decoder) entry }
    {
        if entry.is_unused() || entry.is_absent() {
            return entry;
        }
        Reference {
            surface: self.name_of(entry.surface, decoder),
            ..entry
        }
    }

    // The name of the surface of this own number.
    fn name_of(&self, number: u32, decoder: u32) -> u32
        ensures { result ≡ name_or self.now.slots self.now.objects decoder number }
    {
        if number as usize >= NUMBERS {
            return decoder;
        }
        let surface = self.slots.of_number(number as usize);
        match self.objects.at(Place::Video(surface)) {
            Some(Made { name, .. }) => name,
            None => decoder,
        }
    }
}
