// How the state changes.
ghost use Rattle.std.specs.Prelude.{◌≡◌, ◌==◌, ◌<◌, length};
ghost use Rattle.std.specs.List.{list_any};
ghost use Rattle.driver_model.specs.Answers.{reply_with};
ghost use Rattle.driver_model.specs.Creates.{handles_full, live_devices, live_objects, live_queues, room};
ghost use Rattle.driver_model.specs.States.{destroyed, empty_state, is_out, with_content};
ghost use Rattle.driver_model.specs.declared.replies.Answer.TheVariants.{Name};
ghost use Rattle.plain_driver.specs.Added.{IsAdded};
ghost use Rattle.plain_driver.specs.Looks.{is_live_of, live_of};
ghost use Rattle.plain_driver.specs.States.{content_of, state_of};

use crate::driver::Plain;
use crate::looks::kind;
use crate::objects::{PlainContent, PlainNote, PlainObject};
use driver_model::{DEVICE, MANY_NAMES, MAX_OBJECTS, PRESENTATION_QUEUE};
use std::alloc::Global;
use vd_status::Refusal;

impl Plain {
    /// A new driver, in which nothing has happened.
    pub fn new(alloc: Global) -> Plain
        ensures { state_of result ≡ empty_state }
    {
        Plain {
            objects: Vec::new(alloc),
            notes: Vec::new(alloc),
            items: 0,
        }
    }

    // The object at a place has this content from now on.
    pub(crate) fn put(&mut self, place: usize, content: PlainContent)
        requires { place < length self.old.objects.items }
        ensures { state_of self.new ≡ with_content (state_of self.old) place (content_of content) }
    {
        let object = &mut self.objects[place];
        object.content = content;
    }

    // The object at a place isn't live any more.
    pub(crate) fn destroy(&mut self, place: usize)
        requires { place < length self.old.objects.items }
        ensures { state_of self.new ≡ destroyed (state_of self.old) place }
    {
        let object = &mut self.objects[place];
        object.is_live = false;
    }

    // Adds a live object, and gives it a name.
    pub(crate) fn add(&mut self, device: usize, content: PlainContent) -> Result<u32, Refusal>
        ensures { IsAdded (state_of self.old) (reply_with Name result) (state_of self.new) device (content_of content) }
    {
        let place = self.objects.len();
        if place as u64 >= MANY_NAMES {
            return Err(self.handles_full());
        }
        let object = PlainObject {
            name: (kind(&content) << 29) + place as u32,
            device,
            is_live: true,
            content,
        };
        let name = object.name;
        if self.objects.push(object).is_err() {
            return Err(Refusal::OutOfMemory);
        }
        Ok(name)
    }

    // Why no object can be made.
    fn handles_full(&self) -> Refusal
        ensures { result ≡ handles_full (state_of self.now) }
    {
        Refusal::HandlesFull {
            live: self.live_objects() as u32,
            given: self.objects.len() as u64,
        }
    }

    // Whether there is room for one more object, whose kind may be full.
    pub(crate) fn room(&self, is_full_of_kind: bool) -> Result<(), Refusal>
        ensures { result ≡ room (state_of self.now) is_full_of_kind }
    {
        if self.live_objects() == MAX_OBJECTS as usize || is_full_of_kind {
            Err(self.handles_full())
        } else {
            Ok(())
        }
    }

    fn live_objects(&self) -> usize
        ensures count { result ≡ live_objects (state_of self.now) }
        ensures few { result < 4294967296 }
    {
        self.objects.iter().filter(|object| object.is_live).count()
    }

    pub(crate) fn live_devices(&self) -> usize
        ensures { result ≡ live_devices (state_of self.now) }
    {
        live_of(&self.objects, DEVICE)
    }

    pub(crate) fn live_queues(&self) -> usize
        ensures { result ≡ live_queues (state_of self.now) }
    {
        live_of(&self.objects, PRESENTATION_QUEUE)
    }

    // Whether a job writes the object at a place.
    pub(crate) fn is_out(&self, place: usize) -> bool
        ensures { result ≡ is_out (state_of self.now) place }
    {
        some_targets(&self.notes, place)
    }
}

// How many objects of a kind live.
fn live_of(objects: &[PlainObject], number: u32) -> usize
    ensures { result ≡ live_of number objects.now }
{
    objects
        .iter()
        .filter(|object| is_live_of(object, number))
        .count()
}

fn is_live_of(object: &PlainObject, number: u32) -> bool
    ensures { result ≡ is_live_of number object.now }
{
    object.is_live && kind(&object.content) == number
}

fn some_targets(notes: &[PlainNote], place: usize) -> bool
    ensures { result ≡ list_any (λ note. note.target == place) notes.now }
{
    notes.iter().any(|note| note.target == place)
}
