// The task of a stream.
ghost use Rattle.std.specs.Prelude.{◌≡◌, false, ◌<◌, ℕ, List, [], Option, Some, None, IfOk, OnOk, OnErr, IfSome};
ghost use Rattle.clock_script.specs.Script.{IsLegal};
ghost use Rattle.device_lock.specs.Numbers.{Knows};
ghost use Rattle.device_lock.specs.declared.view.View.{View};
ghost use Rattle.driver.specs.Passes.{IsOf, view};
ghost use Rattle.driver_model.specs.Passes.{caller_of};
ghost use Rattle.driver_model.specs.declared.items.Item.{Item};
ghost use Rattle.stream_calls.specs.Counted.{device_of};
ghost use Rattle.stream_calls.specs.Laws.{feeding};
ghost use Rattle.stream_calls.specs.StreamCalls.{Fed, Stream};
ghost use Rattle.stream_course.specs.Way.{IsTurn, Way};
ghost use Rattle.stream_task.specs.Calls.{queue_of};
ghost use Rattle.stream_task.specs.Keeping.{Ready, StandsFor, made_at};
ghost use Rattle.stream_task.specs.Leaving.{Acted, IsOut, Went, behind_call, behind_create, behind_refusal, called_answer, created_answer, ended_with, refused_answer, with_phase};
ghost use Rattle.stream_task.specs.Places.{IsPlace, fits, index_of};
ghost use Rattle.stream_task.specs.Surfaces.{IsIn};
ghost use Rattle.stream_task.specs.Tasks.{MayFeed, StaysEnded, Steps, no_fed, verdict_of_task};
ghost use Rattle.stream_task.specs.declared.phase.Phase.TheVariants as phase;

use crate::answers::{Stepped, Verdict, verdict_of};
use crate::objects::{Objects, Place};
use crate::phase::Phase;
use crate::slots::Slots;
use cb_types::SizeMbs;
use clock_script::Script;
use driver::{Driver, Pass};
use script_ticks::preemption_of;
use std::alloc::{AllocError, Global};
use std::mem;
use std::sync::Wait;
use std::thread::Threads;
use stream_course::{Course, Turn};
use vd_status::Refusal;

/// Plays one stream on a driver.
#[derive(Drop)]
pub struct StreamTask {
    pub(crate) stream: u32,
    // Whether the script preempts the stream.
    preempts: bool,
    pub(crate) course: Course,
    pub(crate) objects: Objects,
    pub(crate) slots: Slots,
    // The number of the output surface that is used next.
    pub(crate) turn: usize,
    pub(crate) phase: Phase,
}

impl StreamTask {
    /// A task to which nothing was fed, and which has made no call. `stream` is the stream's number, by which the
    /// script and its window name it, and `period` the time from one picture to the next, in nanoseconds.
    pub fn new(
        alloc: Global,
        stream: u32,
        period: u64,
        script: Script,
    ) -> Result<StreamTask, AllocError>
        requires { (streams : ℕ) × IsLegal streams script }
        ensures { IfOk result (λ task. (pass : View Item) → Knows caller_of pass → pass.own ≡ [] → StandsFor task (record { number = stream; period = period; script = script }) no_fed pass) }
    {
        let preempts = preemption_of(&script, stream).is_some();
        Ok(StreamTask {
            stream,
            preempts,
            course: Course::new(alloc, script, stream, period),
            objects: Objects::none(),
            slots: Slots::new(),
            turn: 0,
            phase: Phase::Asking,
        })
    }

    /// Takes the next bytes of the stream's file; an empty slice is its end.
    pub fn feed(&mut self, alloc: Global, bytes: &[u8]) -> Result<(), AllocError>
        requires { (of : Stream) × ((fed : Fed) × ((pass : View Item) × StandsFor self.old of fed pass × MayFeed fed bytes.now)) }
        ensures fed { OnOk result ((of : Stream) (fed : Fed) (pass : View Item) → StandsFor self.old of fed pass → MayFeed fed bytes.now → StandsFor self.new of (feeding fed bytes.now) pass) }
        ensures untouched { OnErr result ((of : Stream) (fed : Fed) (pass : View Item) → StandsFor self.old of fed pass → StandsFor self.new of fed pass) }
    {
        let _ = alloc;
        self.course.feed(bytes)
    }

    /// The name of the stream's device, once it was made.
    pub fn device(&self) -> Option<u32>
        ensures { (of : Stream) (fed : Fed) (pass : View Item) → StandsFor self.now of fed pass → result ≡ device_of pass.own }
    {
        self.objects.device
    }

    /// The name of its presentation queue, once it was made.
    pub fn queue(&self) -> Option<u32>
        ensures { (of : Stream) (fed : Fed) (pass : View Item) → StandsFor self.now of fed pass → result ≡ queue_of pass.own }
    {
        self.objects.queue
    }

    /// Goes on until a call was made, or something stands in the way.
    pub fn step<R: Wait + Threads + Sync>(
        &mut self,
        rt: &R,
        alloc: Global,
        driver: &Driver,
        pass: Pass,
    ) -> (Pass, Stepped)
        requires of { IsOf pass driver.now }
        requires ready { (of : Stream) × ((fed : Fed) × Ready self.old of fed (view pass)) }
        ensures of { IsOf result.0 driver.now }
        ensures went { (of : Stream) (fed : Fed) → Ready self.old of fed (view pass) → Went self.new of fed (view pass) (view result.0) result.1 }
        ensures ended { IfSome (verdict_of_task self.old) (λ verdict. StaysEnded (view pass) (view result.0) verdict result.1) }
    {
        let mut pass = pass;
        for _ in rt.forever() {
            let (back, answer) = self.act(rt, alloc, driver, pass);
            if let Some(answer) = answer {
                return (back, answer);
            }
            pass = back;
        }
        unreachable!()
    }

    // Does what the task is about: what a step answers then, or None where it goes on without a call.
    fn act<R: Wait + Threads + Sync>(
        &mut self,
        rt: &R,
        alloc: Global,
        driver: &Driver,
        pass: Pass,
    ) -> (Pass, Option<Stepped>)
        requires of { IsOf pass driver.now }
        requires ready { (of : Stream) × ((fed : Fed) × Ready self.old of fed (view pass)) }
        ensures of { IsOf result.0 driver.now }
        ensures acted { (of : Stream) (fed : Fed) → Ready self.old of fed (view pass) → Acted self.new of fed (view pass) (view result.0) result.1 }
        ensures ended { IfSome (verdict_of_task self.old) (λ verdict. (result.1 ≡ Some (Stepped.Done verdict)) × (view result.0 ≡ view pass)) }
    {
        match mem::replace(&mut self.phase, Phase::Asking) {
            Phase::Asking => (pass, self.ask()),
            Phase::Rendering { picture, surface } => {
                let (pass, answer) = self.render(rt, alloc, driver, pass, picture, surface);
                (pass, Some(answer))
            }
            Phase::Mixing { surface, time } => {
                let (pass, answer) = self.mix(rt, alloc, driver, pass, surface, time);
                (pass, Some(answer))
            }
            Phase::Displaying { time } => {
                let (pass, answer) = self.display(rt, driver, pass, time);
                (pass, Some(answer))
            }
            Phase::Promising(time) => self.promise(rt, driver, pass, time),
            Phase::Done(verdict) => (pass, Some(self.end_with(verdict))),
        }
    }

    // Asks what is to be done next.
    fn ask(&mut self) -> Option<Stepped>
        requires asking { self.old.phase ≡ phase.Asking }
        requires ready { (of : Stream) × ((fed : Fed) × ((pass : View Item) × Ready self.old of fed pass)) }
        ensures { (of : Stream) (fed : Fed) (pass : View Item) → Ready self.old of fed pass → Acted self.new of fed pass pass result }
    {
        let Ok(turn) = self.course.next() else {
            return Some(Stepped::OutOfMemory);
        };
        match turn {
            Turn::Hungry => {
                return Some(Stepped::Hungry {
                    at: self.course.fed(),
                });
            }
            Turn::Decode(picture) => {
                let surface = self.slots.free_for(picture.begun.frame as usize);
                self.phase = Phase::Rendering { picture, surface };
            }
            Turn::Out { number, time } => self.out(number, time),
            Turn::Promise(time) => self.phase = Phase::Promising(time),
            Turn::Over(ending) => return Some(self.end_with(verdict_of(self.preempts, ending))),
        }
        None
    }

    // The picture of this number is shown at this time, or not at all.
    fn out(&mut self, number: u32, time: Option<u64>)
        requires { (surface : ℕ) × IsIn self.old.slots surface number }
        ensures { IsOut self.old self.new number time }
    {
        let surface = self.slots.waiting(number);
        match time {
            Some(time) => self.phase = Phase::Mixing { surface, time },
            None => self.slots.release(surface),
        }
    }

    // The stream has ended.
    fn end_with(&mut self, verdict: Verdict) -> Stepped
        ensures task { self.new ≡ ended_with self.old verdict }
        ensures answer { result ≡ Stepped.Done verdict }
    {
        self.phase = Phase::Done(verdict);
        Stepped::Done(verdict)
    }

    // The name of the object in a place, if there is one for pictures of this size.
    pub(crate) fn fitting(&self, place: Place, size: SizeMbs) -> Option<u32>
        requires { IsPlace place }
        ensures some { IfSome result (λ name. made_at self.now.objects (index_of place) ≡ Some (record { name = name; size = size })) }
        ensures none { result ≡ None → fits size (made_at self.now.objects (index_of place)) ≡ false }
    {
        match self.objects.at(place) {
            Some(made) if made.size == size => Some(made.name),
            _ => None,
        }
    }

    // What a step answers whose call was refused. Where that isn't for want of memory, the device isn't the stream's
    // own any more.
    pub(crate) fn refused(&mut self, refusal: Refusal) -> Stepped
        ensures task { self.new ≡ behind_refusal self.old refusal }
        ensures answer { result ≡ refused_answer refusal }
    {
        match refusal {
            Refusal::OutOfMemory => Stepped::OutOfMemory,
            _ => self.end_with(Verdict::Preempted),
        }
    }

    // What a step answers whose call has this result.
    pub(crate) fn called(&mut self, reply: Result<(), Refusal>) -> Stepped
        ensures task { self.new ≡ behind_call self.old (λ _. self.old) reply }
        ensures answer { result ≡ called_answer reply }
    {
        match reply {
            Ok(()) => Stepped::Moved,
            Err(refusal) => self.refused(refusal),
        }
    }

    // The same of a call that makes an object, for which there may be no room.
    pub(crate) fn created(&mut self, reply: Result<u32, Refusal>) -> Stepped
        ensures task { self.new ≡ behind_create self.old (λ _. self.old) reply }
        ensures answer { result ≡ created_answer reply }
    {
        match reply {
            Ok(_) => Stepped::Moved,
            Err(Refusal::HandlesFull { live, given }) => Stepped::Full { live, given },
            Err(refusal) => self.refused(refusal),
        }
    }
}
