// How much a driver keeps.
ghost use Rattle.std.specs.Prelude.{◌≡◌, ◌≤◌, ℕ, List, Ok, length, ◌==◌};
ghost use Rattle.present_queue.specs.Queue.{is_queued, is_shown};
ghost use Rattle.std.specs.List.{count_by, enumerate_from, sum_by};
ghost use Rattle.driver_model.specs.Kept.{is_in_queue, is_kept, live_queues_of};
ghost use Rattle.driver_model.specs.Steps.{Step};
ghost use Rattle.driver_model.specs.declared.calls.Call.TheVariants as call;
ghost use Rattle.driver_model.specs.declared.replies.Answer.TheVariants.{Counts};
ghost use Rattle.plain_driver.specs.Keeping.{counts_of, is_surface, some_live_holds, some_live_shows, waiting_in};
ghost use Rattle.plain_driver.specs.States.{content_of, object_of, state_of};

use crate::driver::Plain;
use crate::objects::{PlainContent, PlainObject};
use crate::queues::{holds, shows};

/// How many surfaces and queue entries the driver keeps.
#[derive(Clone, Copy)]
pub struct PlainKept {
    pub surfaces: u64,
    pub entries: u64,
}

impl Plain {
    /// How many surfaces are live, or in line or on display on a live queue, and how many entries the live
    /// queues have.
    pub fn kept(&self) -> PlainKept
        ensures { (caller : List ℕ) → Step (state_of self.now) caller call.Kept (Ok (Counts (counts_of result))) (state_of self.now) }
    {
        PlainKept {
            surfaces: self.kept_surfaces(),
            entries: self.queued_entries(),
        }
    }

    fn kept_surfaces(&self) -> u64
        ensures { result ≡ count_by (is_kept (state_of self.now)) (enumerate_from 0 (state_of self.now).objects) }
    {
        let mut surfaces = 0;
        for (place, object) in self.objects.iter().enumerate() {
            if self.is_kept(place, object) {
                surfaces += 1;
            }
        }
        surfaces
    }

    fn is_kept(&self, place: usize, object: &PlainObject) -> bool
        ensures { result ≡ is_kept (state_of self.now) (place, object_of object.now) }
    {
        is_surface(&object.content) && (object.is_live || self.is_in_queue(place))
    }

    fn is_in_queue(&self, place: usize) -> bool
        ensures { result ≡ is_in_queue (state_of self.now) place }
    {
        self.is_held(place) || self.is_on_display(place)
    }

    fn is_held(&self, place: usize) -> bool
        ensures { result ≡ is_queued (λ other. other == place) (live_queues_of (state_of self.now)) }
    {
        some_live_holds(&self.objects, place)
    }

    fn is_on_display(&self, place: usize) -> bool
        ensures { result ≡ is_shown (λ other. other == place) (live_queues_of (state_of self.now)) }
    {
        some_live_shows(&self.objects, place)
    }

    fn queued_entries(&self) -> u64
        ensures { result ≡ sum_by (λ queue. length queue.entries) (live_queues_of (state_of self.now)) }
    {
        let mut entries = 0;
        for object in self.objects.iter() {
            entries += waiting(object);
        }
        entries
    }
}

fn is_surface(content: &PlainContent) -> bool
    ensures { result ≡ is_surface (content_of content.now) }
{
    match content {
        PlainContent::Video(_) | PlainContent::Output(_) => true,
        _ => false,
    }
}

// Whether a live queue has the surface in line, and whether one shows it.
fn some_live_holds(objects: &[PlainObject], surface: usize) -> bool
    ensures { result ≡ some_live_holds surface objects.now }
{
    objects
        .iter()
        .any(|object| object.is_live && holds(&object.content, surface))
}

fn some_live_shows(objects: &[PlainObject], surface: usize) -> bool
    ensures { result ≡ some_live_shows surface objects.now }
{
    objects
        .iter()
        .any(|object| object.is_live && shows(&object.content, surface))
}

// How many entries wait in a live queue.
fn waiting(object: &PlainObject) -> u64
    ensures value { result ≡ waiting_in object.now }
    ensures few { result ≤ 64 }
{
    match &object.content {
        PlainContent::Queue(queue) if object.is_live => queue.entries.len() as u64,
        _ => 0,
    }
}
