// How a task makes its objects, and destroys those of another size.
ghost use Rattle.std.specs.Prelude.{◌≡◌, ◌≢◌, ◌<◌, false, Some, None};
ghost use Rattle.cb_types.specs.SizeMbs.{IsWithinLimits};
ghost use Rattle.driver.specs.Made.{Makes};
ghost use Rattle.driver.specs.Passes.{IsOf, view};
ghost use Rattle.driver_model.specs.declared.replies.Answer.TheVariants as Answer;
ghost use Rattle.stream_calls.specs.StreamCalls.{Fed, Stream};
ghost use Rattle.stream_task.specs.Keeping.{IsMaking, IsWanted, Ready};
ghost use Rattle.stream_task.specs.Leaving.{Went, behind_call, behind_create, called_answer, created_answer, with_device, with_place, with_queue};
ghost use Rattle.stream_task.specs.Places.{IsPlace, create_call, destroy_call};

use crate::answers::Stepped;
use crate::objects::{Made, Place};
use crate::task::StreamTask;
use cb_types::SizeMbs;
use driver::{Answered, Driver, Pass};
use driver_model::{CHROMA_420, CONSTRAINED_BASELINE, MAX_REFERENCES};
use mixer::B8G8R8A8;
use std::alloc::Global;
use std::sync::Wait;
use vd_status::Refusal;

impl StreamTask {
    // Makes the device.
    pub(crate) fn make_device<R: Wait>(
        &mut self,
        rt: &R,
        alloc: Global,
        driver: &Driver,
        pass: Pass,
    ) -> (Pass, Stepped)
        requires of { IsOf pass driver.now }
        requires ready { (of : Stream) × ((fed : Fed) × Ready self.old of fed (view pass)) }
        requires making { IsMaking self.old.phase }
        requires none { self.old.objects.device ≡ None }
        ensures of { IsOf result.0 driver.now }
        ensures went { (of : Stream) (fed : Fed) → Ready self.old of fed (view pass) → Went self.new of fed (view pass) (view result.0) result.1 }
    {
        let Answered { pass, result, .. } = driver.device_create(rt, alloc, pass);
        let answer = self.device_made(result);
        (pass, answer)
    }

    fn device_made(&mut self, reply: Result<u32, Refusal>) -> Stepped
        ensures task { self.new ≡ behind_create self.old (with_device self.old) reply }
        ensures answer { result ≡ created_answer reply }
    {
        if let Ok(name) = reply {
            self.objects.device = Some(name);
        }
        self.created(reply)
    }

    // Makes the queue, which shows in the window that has the stream's number.
    pub(crate) fn make_queue<R: Wait>(
        &mut self,
        rt: &R,
        alloc: Global,
        driver: &Driver,
        pass: Pass,
        device: u32,
    ) -> (Pass, Stepped)
        requires of { IsOf pass driver.now }
        requires ready { (of : Stream) × ((fed : Fed) × Ready self.old of fed (view pass)) }
        requires making { IsMaking self.old.phase }
        requires device { self.old.objects.device ≡ Some device }
        requires none { self.old.objects.queue ≡ None }
        ensures of { IsOf result.0 driver.now }
        ensures went { (of : Stream) (fed : Fed) → Ready self.old of fed (view pass) → Went self.new of fed (view pass) (view result.0) result.1 }
    {
        let Answered { pass, result, .. } = driver.queue_create(
            rt,
            alloc,
            pass,
            device,
            self.stream,
        );
        let answer = self.queue_made(result);
        (pass, answer)
    }

    fn queue_made(&mut self, reply: Result<u32, Refusal>) -> Stepped
        ensures task { self.new ≡ behind_create self.old (with_queue self.old) reply }
        ensures answer { result ≡ created_answer reply }
    {
        if let Ok(name) = reply {
            self.objects.queue = Some(name);
        }
        self.created(reply)
    }

    // Makes the object of a place for pictures of this size, or destroys the one of another size that is there.
    pub(crate) fn fit<R: Wait>(
        &mut self,
        rt: &R,
        alloc: Global,
        driver: &Driver,
        pass: Pass,
        device: u32,
        place: Place,
        size: SizeMbs,
    ) -> (Pass, Stepped)
        requires of { IsOf pass driver.now }
        requires ready { (of : Stream) × ((fed : Fed) × Ready self.old of fed (view pass)) }
        requires device { self.old.objects.device ≡ Some device }
        requires queue { self.old.objects.queue ≢ None }
        requires wanted { IsWanted self.old place size }
        requires limits { IsWithinLimits size }
        ensures of { IsOf result.0 driver.now }
        ensures went { (of : Stream) (fed : Fed) → Ready self.old of fed (view pass) → Went self.new of fed (view pass) (view result.0) result.1 }
    {
        if let Some(other) = self.objects.at(place) {
            let Answered { pass, result, .. } = destroy(rt, driver, pass, place, other.name);
            let answer = self.destroyed(place, result);
            return (pass, answer);
        }
        let Answered { pass, result, .. } = create(rt, alloc, driver, pass, device, place, size);
        let answer = self.made(place, size, result);
        (pass, answer)
    }

    fn destroyed(&mut self, place: Place, reply: Result<(), Refusal>) -> Stepped
        requires { IsPlace place }
        ensures task { self.new ≡ behind_call self.old (λ _. with_place self.old place None) reply }
        ensures answer { result ≡ called_answer reply }
    {
        if reply.is_ok() {
            self.objects.put(place, None);
        }
        self.called(reply)
    }

    fn made(&mut self, place: Place, size: SizeMbs, reply: Result<u32, Refusal>) -> Stepped
        requires { IsPlace place }
        ensures task { self.new ≡ behind_create self.old (λ name. with_place self.old place (Some (record { name = name; size = size }))) reply }
        ensures answer { result ≡ created_answer reply }
    {
        if let Ok(name) = reply {
            self.objects.put(place, Some(Made { name, size }));
        }
        self.created(reply)
    }
}

// Makes an object of the place's kind on the device.
fn create<R: Wait>(
    rt: &R,
    alloc: Global,
    driver: &Driver,
    pass: Pass,
    device: u32,
    place: Place,
    size: SizeMbs,
) -> Answered<u32>
    requires of { IsOf pass driver.now }
    requires limits { IsWithinLimits size }
    ensures { Makes pass (create_call device place size) Answer.Name result }
{
    let (width, height) = (16 * size.width, 16 * size.height);
    match place {
        Place::Decoder => driver.decoder_create(
            rt,
            alloc,
            pass,
            device,
            CONSTRAINED_BASELINE,
            width,
            height,
            MAX_REFERENCES,
        ),
        Place::Mixer => driver.mixer_create(rt, alloc, pass, device, width, height),
        Place::Video(_) => driver.video_create(rt, alloc, pass, device, CHROMA_420, width, height),
        Place::Output(_) => driver.output_create(rt, alloc, pass, device, B8G8R8A8, width, height),
    }
}

// Destroys it.
fn destroy<R: Wait>(rt: &R, driver: &Driver, pass: Pass, place: Place, name: u32) -> Answered<()>
    requires { IsOf pass driver.now }
    ensures { Makes pass (destroy_call place name) (λ _. Answer.Done) result }
{
    match place {
        Place::Decoder => driver.decoder_destroy(rt, pass, name),
        Place::Mixer => driver.mixer_destroy(rt, pass, name),
        Place::Video(_) => driver.video_destroy(rt, pass, name),
        Place::Output(_) => driver.output_destroy(rt, pass, name),
    }
}
