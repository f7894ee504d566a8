// Presentation queues (vdpau.h, VdpPresentationQueue..).
ghost use Rattle.std.specs.Prelude.{◌≡◌, ℕ, ◌<◌, true, false, Some, IfOk, IfErr, IfSome, IfNone};
ghost use Rattle.std.specs.List.{list_any};
ghost use Rattle.driver_model.specs.Objects.{QueueObject, as_queue};
ghost use Rattle.driver_objects.specs.Contents.{HasContent};
ghost use Rattle.driver_objects.specs.Kept.{kept_of};
ghost use Rattle.driver_objects.specs.Kinds.{has_number, holder_of, is_output, is_queue};
ghost use Rattle.driver_objects.specs.Listed.{HasObjectAt};
ghost use Rattle.driver_core.specs.Answered.{Calls};
ghost use Rattle.driver_core.specs.Found.{Finds, Refuses};

use crate::answer::CoreAnswer;
use crate::driver::Core;
use driver_model::{Answer, Call, OUTPUT_SURFACE, PRESENTATION_QUEUE};
use driver_objects::kinds::{device_at, holder_in, queue_in};
use driver_objects::{Content, PresentationQueue, free_queue_number, sweep};
use present_queue::Entry;
use std::alloc::Global;
use vd_status::Refusal;

impl Core {
    /// Makes a presentation queue that shows in this window, and answers its name
    /// (VdpPresentationQueueCreate). Several queues may show in one window. Refused is a queue where 64 live, or
    /// where there is no room for a further object.
    pub fn queue_create(&mut self, _alloc: Global, device: u32, window: u32) -> CoreAnswer<u32>
        ensures { Calls self.old self.new (Call.QueueCreate device window) Answer.Name result }
    {
        CoreAnswer::Now(self.make_queue(device, window))
    }

    fn make_queue(&mut self, device: u32, window: u32) -> Result<u32, Refusal>
        ensures { Calls self.old self.new (Call.QueueCreate device window) Answer.Name (CoreAnswer.Now result) }
    {
        let on = self.on_device(device)?;
        let Some(number) = free_queue_number(self.objects.kept()) else {
            return Err(Refusal::HandlesFull {
                live: self.objects.live(),
                given: self.objects.made(),
            });
        };
        let queue = Content::Queue(PresentationQueue { window, number });
        self.add(PRESENTATION_QUEUE, Some(on), queue)
    }

    /// Destroys a queue: its entries and its visible surface are let go (VdpPresentationQueueDestroy).
    pub fn queue_destroy(&mut self, queue: u32) -> CoreAnswer<()>
        ensures { Calls self.old self.new (Call.QueueDestroy queue) (λ _. Answer.Done) result }
    {
        match self.queue(0, queue) {
            Ok((index, queue)) => {
                self.objects.destroy(index);
                self.queues.clear(queue.number);
                sweep(&mut self.objects, &self.queues);
                CoreAnswer::Now(Ok(()))
            }
            Err(refusal) => CoreAnswer::Now(Err(refusal)),
        }
    }

    /// The time at which the clock of the queue's device stands, in nanoseconds: that of its last tick
    /// (VdpPresentationQueueGetTime).
    pub fn get_time(&mut self, queue: u32) -> CoreAnswer<u64>
        ensures { Calls self.old self.new (Call.GetTime queue) Answer.Time result }
    {
        match self.queue(0, queue) {
            Ok((index, _)) => {
                let device = device_at(&self.objects, self.objects.kept()[index].device);
                CoreAnswer::Now(Ok(device.time))
            }
            Err(refusal) => CoreAnswer::Now(Err(refusal)),
        }
    }

    /// Promises that nothing is displayed on the queue any more for an earlier time than this, in
    /// nanoseconds. A promise never falls.
    pub fn promise(&mut self, queue: u32, time: u64) -> CoreAnswer<()>
        ensures { Calls self.old self.new (Call.Promise queue time) (λ _. Answer.Done) result }
    {
        match self.queue(0, queue) {
            Ok((_, queue)) => {
                self.queues.promise(queue.number, time);
                CoreAnswer::Now(Ok(()))
            }
            Err(refusal) => CoreAnswer::Now(Err(refusal)),
        }
    }

    /// Has the queue show an output surface of its device behind all that waits there, and not before this
    /// time, in nanoseconds (VdpPresentationQueueDisplay). Refused are, after the two handles: a queue on which
    /// 64 surfaces wait, and a time before the queue's promise.
    pub fn queue_display(&mut self, queue: u32, surface: u32, earliest: u64) -> CoreAnswer<()>
        ensures { Calls self.old self.new (Call.QueueDisplay queue surface earliest) (λ _. Answer.Done) result }
    {
        CoreAnswer::Now(self.display(queue, surface, earliest))
    }

    fn display(&mut self, queue: u32, surface: u32, earliest: u64) -> Result<(), Refusal>
        ensures { Calls self.old self.new (Call.QueueDisplay queue surface earliest) (λ _. Answer.Done) (CoreAnswer.Now result) }
    {
        let (index, on) = self.queue(0, queue)?;
        let device = self.object(index).device;
        let index = self.further(1, OUTPUT_SURFACE, surface, device)?;
        let of = self.object(index);
        let holder = holder_in(&of.content);
        let entry = Entry {
            object: of.place,
            earliest,
        };
        self.queues.display(on.number, holder, entry)
    }

    // The queue that a handle names: which of the kept objects it is, and what it has.
    pub(crate) fn queue(&self, arg: u32, name: u32) -> Result<(usize, PresentationQueue), Refusal>
        ensures finds { IfOk result (λ p. Finds as_queue QueueObject self.now arg name p.0 (Content.Queue p.1)) }
        ensures has { IfOk result (λ p. HasContent (kept_of self.now.objects) p.0 (Content.Queue p.1)) }
        ensures live { IfOk result (λ p. HasObjectAt (λ object. object.is_live) (kept_of self.now.objects) p.0) }
        ensures refuses { IfErr result (Refuses as_queue QueueObject self.now arg name) }
    {
        match self.in_use(arg, PRESENTATION_QUEUE, name) {
            Ok(index) => Ok((index, queue_in(self.content(index)))),
            Err(refusal) => Err(refusal),
        }
    }
}
