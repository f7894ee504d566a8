// The ticks of a device's clock, at which its queues show surfaces.
ghost use Rattle.std.specs.Prelude.{◌≡◌, ℕ, List, map, IfSome, IfOk, IfNone};
ghost use Rattle.std.specs.List.{list_any};
ghost use Rattle.driver_model.specs.Answers.{reply_with};
ghost use Rattle.driver_model.specs.Clock.{advance, all_due, flip_of, no_output, with_flip, with_tick};
ghost use Rattle.driver_model.specs.States.{is_out, name_at};
ghost use Rattle.driver_model.specs.Steps.{Step};
ghost use Rattle.driver_model.specs.Waits.{Waits};
ghost use Rattle.driver_model.specs.declared.calls.Call.TheVariants as call;
ghost use Rattle.plain_driver.specs.Looks.{placed};
ghost use Rattle.plain_driver.specs.Presenting.{with_changed};
ghost use Rattle.plain_driver.specs.States.{content_of, state_of};
ghost use Rattle.plain_driver.specs.Ticking.{AreOf, due_of, due_surface, flipped_of, flips_told, output_at, output_in, window_at, window_in, with_all_shown};

use crate::driver::Plain;
use crate::objects::{PlainContent, PlainDevice, PlainFlip, PlainObject};
use crate::queues::Places;
use crate::sizes::refused_if;
use std::alloc::{AllocError, Global};
use vd_status::Refusal;

/// A queue has shown a surface.
#[derive(Drop)]
pub struct PlainFlipped {
    pub queue: u32,
    pub window: u32,
    pub surface: u32,
    pub time: u64,
    pub width: u32,
    pub height: u32,
    pub format: u32,
    pub bytes: Vec<u8>,
}

impl Plain {
    /// A tick of a device's clock: each of its queues whose oldest entry is due shows that entry's surface.
    /// None: the call waits, while a job writes a surface that would be shown.
    pub fn advance(
        &mut self,
        alloc: Global,
        device: u32,
        time: u64,
    ) -> Option<Result<Vec<PlainFlipped>, Refusal>>
        ensures step { IfSome result (λ reply. (caller : List ℕ) → Step (state_of self.old) caller (call.Advance device time) (reply_with (λ flips. flips_told flips.items) reply) (state_of self.new)) }
        ensures waits { IfNone result (Waits (state_of self.old) (call.Advance device time)) }
        ensures later { IfNone result (state_of self.new ≡ state_of self.old) }
    {
        let on = match self.may_advance(device, time) {
            Ok(on) => on,
            Err(refusal) => return Some(Err(refusal)),
        };
        let Ok(dues) = self.all_due(alloc, on, time) else {
            return Some(Err(Refusal::OutOfMemory));
        };
        if self.is_tick_held(&dues) {
            return None;
        }
        let Ok(flips) = self.flips(alloc, &dues, time) else {
            return Some(Err(Refusal::OutOfMemory));
        };
        let is_preempted = self.device_in(on).is_preempted;
        self.put(on, PlainContent::Device(PlainDevice { time, is_preempted }));
        self.show_all(&dues, time);
        Some(Ok(flips))
    }

    fn may_advance(&self, device: u32, time: u64) -> Result<usize, Refusal>
        ensures { result ≡ placed (advance (state_of self.now) device time) }
    {
        let on = self.device(device)?;
        let last = self.device_in(on).time;
        refused_if(time <= last, Refusal::TimeNotAfter { last })?;
        Ok(on)
    }

    // The queues of a device that are to show a surface, with their surfaces.
    fn all_due(&self, alloc: Global, on: usize, time: u64) -> Result<Vec<Places>, AllocError>
        ensures { IfOk result (λ dues. map due_of dues.items ≡ all_due (state_of self.now) on time) }
    {
        let mut dues = Vec::new(alloc);
        for (queue, object) in self.objects.iter().enumerate() {
            if let Some(surface) = due_surface(object, on, time) {
                dues.push(Places { queue, surface })?;
            }
        }
        Ok(dues)
    }

    fn is_tick_held(&self, dues: &[Places]) -> bool
        ensures { result ≡ list_any (λ due. is_out (state_of self.now) due.surface) dues.now }
    {
        dues.iter().any(|due| self.is_out(due.surface))
    }

    // What is told of the surfaces that are shown.
    fn flips(
        &self,
        alloc: Global,
        dues: &[Places],
        time: u64,
    ) -> Result<Vec<PlainFlipped>, AllocError>
        ensures { IfOk result (λ flips. map flipped_of flips.items ≡ map (flip_of (state_of self.now) time) (map due_of dues.now)) }
    {
        let mut flips = Vec::new(alloc);
        for due in dues {
            flips.push(self.flip(alloc, *due, time)?)?;
        }
        Ok(flips)
    }

    fn flip(&self, alloc: Global, due: Places, time: u64) -> Result<PlainFlipped, AllocError>
        ensures { IfOk result (λ flip. flipped_of flip ≡ flip_of (state_of self.now) time (due_of due)) }
    {
        let queue = self.name_at(due.queue);
        let window = self.window_at(due.queue);
        let surface = self.name_at(due.surface);
        let told = self.pixels_at(alloc, due.surface)?;
        Ok(PlainFlipped {
            queue,
            window,
            surface,
            time,
            width: told.width,
            height: told.height,
            format: told.format,
            bytes: told.bytes,
        })
    }

    // Shows one surface after the other.
    fn show_all(&mut self, dues: &[Places], time: u64)
        ensures { state_of self.new ≡ with_all_shown (state_of self.old) time (map due_of dues.now) }
    {
        for due in dues {
            self.tick(due.queue, time);
            self.flip_to(due.surface, due.queue, time);
        }
    }

    fn tick(&mut self, place: usize, time: u64)
        ensures { state_of self.new ≡ with_changed (state_of self.old) place (with_tick time) }
    {
        if place < self.objects.len() {
            let object = &mut self.objects[place];
            tick(&mut object.content, time);
        }
    }

    fn flip_to(&mut self, place: usize, queue: usize, time: u64)
        ensures { state_of self.new ≡ with_changed (state_of self.old) place (with_flip queue time) }
    {
        if place < self.objects.len() {
            let object = &mut self.objects[place];
            flip_to(&mut object.content, queue, time);
        }
    }

    fn name_at(&self, place: usize) -> u32
        ensures { result ≡ name_at (state_of self.now) place }
    {
        match self.objects.get(place) {
            Some(object) => object.name,
            None => 0,
        }
    }

    fn window_at(&self, place: usize) -> u32
        ensures { result ≡ window_at (state_of self.now) place }
    {
        match self.objects.get(place) {
            Some(object) => window(&object.content),
            None => 0,
        }
    }

    fn pixels_at(&self, alloc: Global, place: usize) -> Result<PlainPixels, AllocError>
        ensures { IfOk result (λ pixels. AreOf pixels (output_at (state_of self.now) place)) }
    {
        match self.objects.get(place) {
            Some(object) => pixels(alloc, &object.content),
            None => Ok(PlainPixels::none(alloc)),
        }
    }
}

fn window(content: &PlainContent) -> u32
    ensures { result ≡ window_in (content_of content.now) }
{
    match content {
        PlainContent::Queue(queue) => queue.window,
        _ => 0,
    }
}

// The pixels of a surface, and how they are to be read.
#[derive(Drop)]
struct PlainPixels {
    width: u32,
    height: u32,
    format: u32,
    bytes: Vec<u8>,
}

impl PlainPixels {
    fn none(alloc: Global) -> PlainPixels
        ensures { AreOf result no_output }
    {
        PlainPixels {
            width: 0,
            height: 0,
            format: 0,
            bytes: Vec::new(alloc),
        }
    }
}

fn pixels(alloc: Global, content: &PlainContent) -> Result<PlainPixels, AllocError>
    ensures { IfOk result (λ pixels. AreOf pixels (output_in (content_of content.now))) }
{
    match content {
        PlainContent::Output(output) => Ok(PlainPixels {
            width: output.size.luma_width(),
            height: output.size.luma_height(),
            format: output.format,
            bytes: Vec::from_slice(alloc, &output.bytes)?,
        }),
        _ => Ok(PlainPixels::none(alloc)),
    }
}

// The surface that the object is to show, if it is a live queue of the device and its oldest entry is due.
fn due_surface(object: &PlainObject, on: usize, time: u64) -> Option<usize>
    ensures { result ≡ due_surface on time object.now }
{
    if !object.is_live || object.device != on {
        return None;
    }
    match &object.content {
        PlainContent::Queue(queue) => match queue.entries.first() {
            Some(entry) if entry.earliest <= time => Some(entry.surface),
            _ => None,
        },
        _ => None,
    }
}

// A queue shows the surface of its oldest entry, if that is due.
fn tick(content: &mut PlainContent, time: u64)
    ensures { content_of content.new ≡ with_tick time (content_of content.old) }
{
    if let PlainContent::Queue(queue) = content {
        let is_due = match queue.entries.first() {
            Some(entry) => entry.earliest <= time,
            None => false,
        };
        if is_due {
            let entry = queue.entries.remove(0);
            queue.visible = Some(entry.surface);
        }
    }
}

// A surface was shown by this queue.
fn flip_to(content: &mut PlainContent, queue: usize, time: u64)
    ensures { content_of content.new ≡ with_flip queue time (content_of content.old) }
{
    if let PlainContent::Output(output) = content {
        output.last_flip = Some(PlainFlip { queue, time });
    }
}
