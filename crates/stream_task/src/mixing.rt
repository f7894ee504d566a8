// The mixing of a picture that is to be shown, and what is made for it before.
ghost use Rattle.std.specs.Prelude.{◌≡◌, ◌+◌, Some};
ghost use Rattle.driver.specs.Passes.{IsOf, view};
ghost use Rattle.stream_calls.specs.StreamCalls.{Fed, Stream};
ghost use Rattle.stream_task.specs.Keeping.{Ready, made_at};
ghost use Rattle.stream_task.specs.Leaving.{Went, with_phase};
ghost use Rattle.stream_task.specs.declared.phase.Phase.TheVariants as phase;

use crate::answers::Stepped;
use crate::objects::{Made, Place};
use crate::phase::Phase;
use crate::task::StreamTask;
use driver::{Answered, BeginMix, Driver, Pass, Wish};
use driver_model::FRAME;
use std::alloc::Global;
use std::sync::Wait;
use vd_outside::OpenGate;

impl StreamTask {
    // Mixes the picture in this video surface into the output surface in turn, or makes one of the objects that this
    // needs.
    pub(crate) fn mix<R: Wait>(
        &mut self,
        rt: &R,
        alloc: Global,
        driver: &Driver,
        pass: Pass,
        surface: usize,
        time: u64,
    ) -> (Pass, Stepped)
        requires of { IsOf pass driver.now }
        requires ready { (of : Stream) × ((fed : Fed) × Ready (with_phase self.old (phase.Mixing surface time)) of fed (view pass)) }
        ensures of { IsOf result.0 driver.now }
        ensures went { (of : Stream) (fed : Fed) → Ready (with_phase self.old (phase.Mixing surface time)) of fed (view pass) → Went self.new of fed (view pass) (view result.0) result.1 }
    {
        self.phase = Phase::Mixing { surface, time };
        let Some(device) = self.objects.device else {
            unreachable!()
        };
        let Some(video) = self.objects.at(Place::Video(surface)) else {
            unreachable!()
        };
        let Some(mixer) = self.fitting(Place::Mixer, video.size) else {
            return self.fit(rt, alloc, driver, pass, device, Place::Mixer, video.size);
        };
        let turn = Place::Output(self.turn);
        let Some(output) = self.objects.at(turn) else {
            return self.fit(rt, alloc, driver, pass, device, turn, video.size);
        };
        let wish = Wish::OutputIdle {
            surface: output.name,
        };
        let Answered { pass, result, .. } = driver.poll(rt, pass, &[wish]);
        match result {
            Ok(Some(_)) if output.size == video.size => {
                self.begin_mix(rt, alloc, driver, pass, mixer, video, output, surface, time)
            }
            Ok(Some(_)) => self.fit(rt, alloc, driver, pass, device, turn, video.size),
            Ok(None) => (pass, Stepped::Blocked(wish)),
            Err(refusal) => {
                let answer = self.refused(refusal);
                (pass, answer)
            }
        }
    }

    // Mixes the video surface into the output surface, which are those in their places. Then the video surface may be
    // used again, and the output surface is to be displayed.
    fn begin_mix<R: Wait>(
        &mut self,
        rt: &R,
        alloc: Global,
        driver: &Driver,
        pass: Pass,
        mixer: u32,
        video: Made,
        output: Made,
        surface: usize,
        time: u64,
    ) -> (Pass, Stepped)
        requires of { IsOf pass driver.now }
        requires phase { self.old.phase ≡ phase.Mixing surface time }
        requires ready { (of : Stream) × ((fed : Fed) × Ready self.old of fed (view pass)) }
        requires mixer { made_at self.old.objects 1 ≡ Some (record { name = mixer; size = video.size }) }
        requires video { made_at self.old.objects (2 + surface) ≡ Some video }
        requires output { made_at self.old.objects (36 + self.old.turn) ≡ Some output }
        requires size { output.size ≡ video.size }
        ensures of { IsOf result.0 driver.now }
        ensures went { (of : Stream) (fed : Fed) → Ready self.old of fed (view pass) → Went self.new of fed (view pass) (view result.0) result.1 }
    {
        match driver.begin_mix(rt, alloc, pass, mixer, FRAME, video.name, output.name) {
            BeginMix::Job(job) => {
                let done = job.run(&mut OpenGate);
                let Answered { pass, .. } = driver.end_mix(rt, done);
                self.slots.release(surface);
                self.phase = Phase::Displaying { time };
                (pass, Stepped::Moved)
            }
            BeginMix::Refused {
                pass,
                refusal,
                place: _,
            } => {
                let answer = self.refused(refusal);
                (pass, answer)
            }
        }
    }
}
