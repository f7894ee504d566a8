// Presentation queues (vdpau.h, VdpPresentationQueue..).
ghost use Rattle.std.specs.Prelude.{◌≡◌, ◌<◌, ℕ, List, Some, IsSome, length, slice_get, IfSome, IfNone, ◌==◌, false};
ghost use Rattle.std.specs.List.{list_any};
ghost use Rattle.driver_model.specs.Answers.{reply_with};
ghost use Rattle.driver_model.specs.Clock.{let_go};
ghost use Rattle.driver_model.specs.Creates.{queue_create};
ghost use Rattle.driver_model.specs.Objects.{Object, as_queue};
ghost use Rattle.driver_model.specs.Presented.{first_time, is_idle_at, is_queued_at, is_visible_at, status_at};
ghost use Rattle.driver_model.specs.Queues.{presented, queue_display};
ghost use Rattle.driver_model.specs.States.{content_at, time_of};
ghost use Rattle.driver_model.specs.Steps.{Step};
ghost use Rattle.driver_model.specs.Waits.{Waits};
ghost use Rattle.driver_model.specs.declared.calls.Call.TheVariants as call;
ghost use Rattle.driver_model.specs.declared.replies.Answer.TheVariants.{Done, Name, Status, Time};
ghost use Rattle.plain_driver.specs.Presenting.{HasRoom, both_placed, first_time_in, holds_in, lined_up, promised_in, shows_in, some_holds, some_shows, time_in, with_changed, with_object_changed};
ghost use Rattle.plain_driver.specs.States.{content_of, presentation_of, queue_of, queued_of, state_of};
ghost use Rattle.present_queue.specs.Queue.{answer_to_display};

use crate::devices::let_go;
use crate::driver::Plain;
use crate::objects::{PlainContent, PlainObject, PlainQueue, PlainQueued};
use driver_model::{MAX_QUEUES, PresentStatus, Shown};
use std::alloc::Global;
use vd_status::Refusal;

/// A queue and a surface, by their places.
#[derive(Clone, Copy)]
pub struct Places {
    pub queue: usize,
    pub surface: usize,
}

impl Plain {
    /// Makes a queue that shows in the window of this number.
    pub fn queue_create(&mut self, alloc: Global, device: u32, window: u32) -> Result<u32, Refusal>
        ensures { (caller : List ℕ) → Step (state_of self.old) caller (call.QueueCreate device window) (reply_with Name result) (state_of self.new) }
    {
        let place = self.room_for_queue(device)?;
        let Ok(entries) = Vec::with_capacity(alloc, 64) else {
            return Err(Refusal::OutOfMemory);
        };
        self.add(
            place,
            PlainContent::Queue(PlainQueue {
                window,
                entries,
                visible: None,
                promise: 0,
            }),
        )
    }

    fn room_for_queue(&self, device: u32) -> Result<usize, Refusal>
        ensures { result ≡ queue_create (state_of self.now) device }
    {
        let place = self.device(device)?;
        self.room(self.live_queues() == MAX_QUEUES as usize)?;
        Ok(place)
    }

    /// Destroys a queue, which lets go of its entries and of what it shows.
    pub fn queue_destroy(&mut self, queue: u32) -> Result<(), Refusal>
        ensures { (caller : List ℕ) → Step (state_of self.old) caller (call.QueueDestroy queue) (reply_with (λ nothing. Done) result) (state_of self.new) }
    {
        let place = self.queue(queue)?;
        self.destroy_queue(place);
        Ok(())
    }

    /// Puts a surface in line on a queue, to be shown at this time or later.
    pub fn queue_display(&mut self, queue: u32, surface: u32, earliest: u64) -> Result<(), Refusal>
        ensures { (caller : List ℕ) → Step (state_of self.old) caller (call.QueueDisplay queue surface earliest) (reply_with (λ nothing. Done) result) (state_of self.new) }
    {
        let on = self.room_in_queue(queue, surface, earliest)?;
        let surface = on.surface;
        self.line_up(on.queue, PlainQueued { surface, earliest });
        Ok(())
    }

    /// How a surface stands to the queues, and when it was last shown first on this one.
    pub fn query_status(&self, queue: u32, surface: u32) -> Result<Shown, Refusal>
        ensures { (caller : List ℕ) → Step (state_of self.now) caller (call.QueryStatus queue surface) (reply_with Status result) (state_of self.now) }
    {
        let on = self.presented(queue, surface)?;
        Ok(Shown {
            status: self.status_at(on.surface),
            first_time: self.first_time(on.queue, on.surface),
        })
    }

    /// When the surface was last shown first on the queue, once it is idle. None: the call waits.
    pub fn block_until_idle(&self, queue: u32, surface: u32) -> Option<Result<u64, Refusal>>
        ensures step { IfSome result (λ reply. (caller : List ℕ) → Step (state_of self.now) caller (call.BlockUntilIdle queue surface) (reply_with Time reply) (state_of self.now)) }
        ensures waits { IfNone result (Waits (state_of self.now) (call.BlockUntilIdle queue surface)) }
    {
        let on = match self.presented(queue, surface) {
            Ok(found) => found,
            Err(refusal) => return Some(Err(refusal)),
        };
        if self.is_idle_at(on.surface) {
            Some(Ok(self.first_time(on.queue, on.surface)))
        } else {
            None
        }
    }

    /// What the clock of the queue's device stands at.
    pub fn get_time(&self, queue: u32) -> Result<u64, Refusal>
        ensures { (caller : List ℕ) → Step (state_of self.now) caller (call.GetTime queue) (reply_with Time result) (state_of self.now) }
    {
        let place = self.queue(queue)?;
        Ok(self.time_of(self.device_at(place)))
    }

    /// Promises that nothing earlier than this time will be displayed on the queue.
    pub fn promise(&mut self, queue: u32, time: u64) -> Result<(), Refusal>
        ensures { (caller : List ℕ) → Step (state_of self.old) caller (call.Promise queue time) (reply_with (λ nothing. Done) result) (state_of self.new) }
    {
        let place = self.queue(queue)?;
        self.promise_in(place, time);
        Ok(())
    }

    // A queue and an output surface of its device.
    pub(crate) fn presented(&self, queue: u32, surface: u32) -> Result<Places, Refusal>
        ensures { result ≡ both_placed (presented (state_of self.now) queue surface) }
    {
        let queue = self.queue(queue)?;
        let surface = self.further_output(1, self.device_at(queue), surface)?;
        Ok(Places { queue, surface })
    }

    // The same, where the queue takes one entry more of this time.
    fn room_in_queue(&self, queue: u32, surface: u32, earliest: u64) -> Result<Places, Refusal>
        ensures { result ≡ both_placed (queue_display (state_of self.now) queue surface earliest) }
    {
        let on = self.presented(queue, surface)?;
        answer_to_display(self.queue_in(on.queue), earliest)?;
        Ok(on)
    }

    // The queue at a place.
    pub(crate) fn queue_in(&self, place: usize) -> &PlainQueue
        requires { IsSome (content_at (state_of self.now) as_queue place) }
        ensures { content_at (state_of self.now) as_queue place ≡ Some (presentation_of result.now) }
    {
        match &self.objects[place].content {
            PlainContent::Queue(queue) => queue,
            _ => unreachable!(),
        }
    }

    fn destroy_queue(&mut self, place: usize)
        requires { place < length self.old.objects.items }
        ensures { state_of self.new ≡ with_object_changed (state_of self.old) place (λ object. record object { is_live = false; content = let_go object.content }) }
    {
        let object = &mut self.objects[place];
        object.is_live = false;
        let_go(&mut object.content);
    }

    fn line_up(&mut self, place: usize, entry: PlainQueued)
        requires place { place < length self.old.objects.items }
        requires room { (object : Object) → slice_get (state_of self.old).objects place ≡ Some object → HasRoom object.content }
        ensures { state_of self.new ≡ with_changed (state_of self.old) place (lined_up (queued_of entry)) }
    {
        let object = &mut self.objects[place];
        line_up(&mut object.content, entry);
    }

    fn promise_in(&mut self, place: usize, time: u64)
        requires { place < length self.old.objects.items }
        ensures { state_of self.new ≡ with_changed (state_of self.old) place (promised_in time) }
    {
        let object = &mut self.objects[place];
        promise(&mut object.content, time);
    }

    fn status_at(&self, surface: usize) -> PresentStatus
        ensures { result ≡ status_at (state_of self.now) surface }
    {
        if self.is_visible_at(surface) {
            PresentStatus::Visible
        } else if self.is_queued_at(surface) {
            PresentStatus::Queued
        } else {
            PresentStatus::Idle
        }
    }

    fn is_visible_at(&self, surface: usize) -> bool
        ensures { result ≡ is_visible_at (state_of self.now) surface }
    {
        some_shows(&self.objects, surface)
    }

    fn is_queued_at(&self, surface: usize) -> bool
        ensures { result ≡ is_queued_at (state_of self.now) surface }
    {
        some_holds(&self.objects, surface)
    }

    pub(crate) fn is_idle_at(&self, surface: usize) -> bool
        ensures { result ≡ is_idle_at (state_of self.now) surface }
    {
        !self.is_visible_at(surface) && !self.is_queued_at(surface)
    }

    fn first_time(&self, queue: usize, surface: usize) -> u64
        ensures { result ≡ first_time (state_of self.now) queue surface }
    {
        match self.objects.get(surface) {
            Some(object) => first_time(&object.content, queue),
            None => 0,
        }
    }

    fn time_of(&self, device: usize) -> u64
        ensures { result ≡ time_of (state_of self.now) device }
    {
        match self.objects.get(device) {
            Some(object) => time_of(&object.content),
            None => 0,
        }
    }
}

// What a display answers.
fn answer_to_display(queue: &PlainQueue, earliest: u64) -> Result<(), Refusal>
    ensures { result ≡ answer_to_display (queue_of queue.now) earliest }
{
    if queue.entries.len() == 64 {
        Err(Refusal::QueueFull)
    } else if earliest < queue.promise {
        Err(Refusal::EarlierThanPromise {
            promise: queue.promise,
        })
    } else {
        Ok(())
    }
}

fn line_up(content: &mut PlainContent, entry: PlainQueued)
    requires { HasRoom (content_of content.old) }
    ensures { content_of content.new ≡ lined_up (queued_of entry) (content_of content.old) }
{
    if let PlainContent::Queue(queue) = content {
        let _ = queue.entries.push(entry);
    }
}

fn promise(content: &mut PlainContent, time: u64)
    ensures { content_of content.new ≡ promised_in time (content_of content.old) }
{
    if let PlainContent::Queue(queue) = content {
        queue.promise = queue.promise.max(time);
    }
}

// Whether a queue shows the surface at this place.
fn some_shows(objects: &[PlainObject], surface: usize) -> bool
    ensures { result ≡ some_shows surface objects.now }
{
    objects.iter().any(|object| shows(&object.content, surface))
}

pub(crate) fn shows(content: &PlainContent, surface: usize) -> bool
    ensures { result ≡ shows_in surface content.now }
{
    match content {
        PlainContent::Queue(queue) => match queue.visible {
            Some(shown) => shown == surface,
            None => false,
        },
        _ => false,
    }
}

// Whether a queue has the surface in line.
fn some_holds(objects: &[PlainObject], surface: usize) -> bool
    ensures { result ≡ some_holds surface objects.now }
{
    objects.iter().any(|object| holds(&object.content, surface))
}

pub(crate) fn holds(content: &PlainContent, surface: usize) -> bool
    ensures { result ≡ holds_in surface content.now }
{
    match content {
        PlainContent::Queue(queue) => some_names(&queue.entries, surface),
        _ => false,
    }
}

fn first_time(content: &PlainContent, queue: usize) -> u64
    ensures { result ≡ first_time_in queue (content_of content.now) }
{
    match content {
        PlainContent::Output(output) => match output.last_flip {
            Some(flip) if flip.queue == queue => flip.time,
            _ => 0,
        },
        _ => 0,
    }
}

fn time_of(content: &PlainContent) -> u64
    ensures { result ≡ time_in (content_of content.now) }
{
    match content {
        PlainContent::Device(device) => device.time,
        _ => 0,
    }
}

fn some_names(entries: &[PlainQueued], surface: usize) -> bool
    ensures { result ≡ list_any (λ entry. entry.surface == surface) entries.now }
{
    entries.iter().any(|entry| entry.surface == surface)
}
