// The ticks of a device's clock: which queues are due, and what becomes of them and of what they show.
ghost use Rattle.std.specs.Prelude.{◌≡◌, ℕ, ◌<◌, ◌==◌, List, filter_map, map, Some, IfOk};
ghost use Rattle.std.specs.List.{list_any};
ghost use Rattle.driver_objects.specs.Kept.{IsGiven, kept_of, made_of};
ghost use Rattle.driver_objects.specs.DeviceEnds.{AreNumbered};
ghost use Rattle.driver_objects.specs.Kinds.{number_of};
ghost use Rattle.driver_objects.specs.Ticks.{HaveNumbers, all_noted, all_ticked, due_of, noted, timed, with_flip, with_time};

use crate::content::{Content, Device, LastFlip, OutputSurface};
use crate::jobs::{OutJob, writes};
use crate::lends::nothing;
use crate::object::Object;
use crate::objects::Objects;
use present_queue::Queues;
use std::alloc::{AllocError, Global};

/// A queue that is to show a surface.
#[derive(Clone, Copy)]
pub struct Due {
    /// The queue's place among all objects ever made.
    pub queue: u64,
    /// The queue's name.
    pub name: u32,
    pub window: u32,
    /// The queue's number among the presentation queues.
    pub number: u32,
    /// The surface's place among all objects ever made.
    pub surface: u64,
}

/// The queues of the device that are due at this time, in the order in which they were made.
pub fn all_due(
    alloc: Global,
    kept: &[Object],
    queues: &Queues,
    device: u64,
    time: u64,
) -> Result<Vec<Due>, AllocError>
    requires { AreNumbered kept.now }
    ensures { IfOk result (λ dues. dues.items ≡ filter_map (due_of queues.now device time) kept.now) }
{
    let mut dues = Vec::new(alloc);
    for object in kept {
        if let Some(due) = due_of(object, queues, device, time) {
            dues.push(due)?;
        }
    }
    Ok(dues)
}

/// Whether a job writes what a queue of the device that is due at this time is to show.
pub fn is_due_written(
    kept: &[Object],
    queues: &Queues,
    jobs: &[OutJob],
    device: u64,
    time: u64,
) -> bool
    requires { AreNumbered kept.now }
    ensures { result ≡ list_any (λ due. list_any (λ job. job.target == due.surface) jobs.now) (filter_map (due_of queues.now device time) kept.now) }
{
    for object in kept {
        if let Some(due) = due_of(object, queues, device, time) {
            if writes(jobs, due.surface) {
                return true;
            }
        }
    }
    false
}

// What the object is to show, if it is a queue of the device that is due.
fn due_of(object: &Object, queues: &Queues, device: u64, time: u64) -> Option<Due>
    requires { (number : ℕ) → number_of object.now.content ≡ Some number → number < 64 }
    ensures { result ≡ due_of queues.now device time object.now }
{
    if !object.is_live || object.device != device {
        return None;
    }
    match &object.content {
        Content::Queue(of) => {
            let entry = queues.due(of.number, time)?;
            Some(Due {
                queue: object.place,
                name: object.name,
                window: of.window,
                number: of.number,
                surface: entry.object,
            })
        }
        _ => None,
    }
}

/// Gives the device at this place this time.
pub fn set_time(objects: &mut Objects, device: u64, time: u64)
    ensures kept { kept_of objects.new ≡ map (timed device time) (kept_of objects.old) }
    ensures made { made_of objects.new ≡ made_of objects.old }
    ensures given { (names : List ℕ) → IsGiven objects.old names → IsGiven objects.new names }
{
    if let Some(index) = objects.at(device) {
        let before = objects.replace(index, nothing());
        objects.replace(index, with_time(before, time));
    }
}

// A device with this time. Other content stays as it is.
fn with_time(content: Content, time: u64) -> Content
    ensures { result ≡ with_time time content }
{
    match content {
        Content::Device(of) => Content::Device(Device { time, ..of }),
        other => other,
    }
}

/// Ticks each queue that is due, and notes the flip of what it shows.
pub fn show_all(objects: &mut Objects, queues: &mut Queues, dues: &[Due], time: u64)
    requires { HaveNumbers dues.now }
    ensures kept { kept_of objects.new ≡ all_noted time dues.now (kept_of objects.old) }
    ensures made { made_of objects.new ≡ made_of objects.old }
    ensures given { (names : List ℕ) → IsGiven objects.old names → IsGiven objects.new names }
    ensures queues { queues.new ≡ all_ticked time dues.now queues.old }
{
    for due in dues {
        queues.tick(due.number, time);
        let flip = LastFlip {
            queue: due.queue,
            time,
        };
        note_flip(objects, due.surface, flip);
    }
}

// Makes this the latest flip of the output surface at this place.
fn note_flip(objects: &mut Objects, surface: u64, flip: LastFlip)
    ensures kept { kept_of objects.new ≡ map (noted surface flip) (kept_of objects.old) }
    ensures made { made_of objects.new ≡ made_of objects.old }
    ensures given { (names : List ℕ) → IsGiven objects.old names → IsGiven objects.new names }
{
    if let Some(index) = objects.at(surface) {
        let before = objects.replace(index, nothing());
        objects.replace(index, with_flip(before, flip));
    }
}

// An output surface with this latest flip. Other content stays as it is.
fn with_flip(content: Content, flip: LastFlip) -> Content
    ensures { result ≡ with_flip flip content }
{
    match content {
        Content::Output(of) => Content::Output(OutputSurface {
            format: of.format,
            size: of.size,
            pixels: of.pixels,
            last_flip: Some(flip),
            holder: of.holder,
        }),
        other => other,
    }
}
