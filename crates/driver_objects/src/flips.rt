// What a tick shows.
ghost use Rattle.std.specs.Prelude.{◌≡◌, ℕ, ◌<◌, List, [], length, slice_get, Some, IfOk};
ghost use Rattle.driver_objects.specs.Kept.{IsGiven, kept_of, made_of};
ghost use Rattle.driver_objects.specs.Flips.{AreFlips, HaveSurfaces, HasSurface, IsFlip, ShowsPixels, bytes_of, flipped, list_of, shown_by, told};
ghost use Rattle.driver_objects.specs.Alike.{AreAlike};

use crate::content::{Content, OutputSurface};
use crate::lends::lend_pixels;
use crate::object::Object;
use crate::objects::Objects;
use crate::ticks::Due;
use std::alloc::{AllocError, Global};
use std::sync::Arc;

/// The bytes of an output surface at a flip. They stay as they are, whatever becomes of the surface.
#[derive(Drop)]
pub struct Pixels {
    pub(crate) shared: Arc<Vec<u8>>,
}

impl Pixels {
    /// Row by row, four bytes for each pixel.
    pub fn bytes(&self) -> &[u8]
        ensures { result.now ≡ bytes_of self.now }
    {
        self.shared.as_slice()
    }
}

/// A presentation queue has shown an output surface.
#[derive(Drop)]
pub struct Flip {
    /// The queue's name.
    pub queue: u32,
    pub window: u32,
    /// The surface's name, which may be dead.
    pub surface: u32,
    /// Shown from this time on, in nanoseconds.
    pub time: u64,
    /// The sides in pixels.
    pub width: u32,
    pub height: u32,
    pub format: u32,
    pub pixels: Pixels,
}

/// The flips of a tick, in the order in which the queues were made.
#[derive(Drop)]
pub struct Flips {
    pub(crate) list: Vec<Flip>,
}

impl Flips {
    /// None.
    pub fn new(alloc: Global) -> Result<Flips, AllocError>
        ensures { IfOk result (λ flips. flipped flips ≡ []) }
    {
        Ok(Flips {
            list: Vec::new(alloc),
        })
    }

    /// How many there are.
    pub fn len(&self) -> usize
        ensures { result ≡ length (flipped self.now) }
    {
        self.list.len()
    }

    /// One of them, by its number from 0.
    pub fn get(&self, i: usize) -> &Flip
        requires { i < length (flipped self.now) }
        ensures { slice_get (flipped self.now) i ≡ Some (told result.now) }
    {
        &self.list[i]
    }
}

/// The flips to all queues that are due.
pub fn flips_to(
    objects: &mut Objects,
    alloc: Global,
    dues: &[Due],
    time: u64,
) -> Result<Flips, AllocError>
    requires { HaveSurfaces (kept_of objects.old) dues.now }
    ensures alike { AreAlike (kept_of objects.new) (kept_of objects.old) }
    ensures made { made_of objects.new ≡ made_of objects.old }
    ensures given { (names : List ℕ) → IsGiven objects.old names → IsGiven objects.new names }
    ensures flips { IfOk result (λ flips. AreFlips (kept_of objects.old) time dues.now (list_of flips)) }
{
    let mut list = Vec::new(alloc);
    for due in dues {
        let flip = flip_to(objects, alloc, *due, time)?;
        list.push(flip)?;
    }
    Ok(Flips { list })
}

// The flip to a queue that is due.
fn flip_to(objects: &mut Objects, alloc: Global, due: Due, time: u64) -> Result<Flip, AllocError>
    requires { HasSurface (kept_of objects.old) due.surface }
    ensures alike { AreAlike (kept_of objects.new) (kept_of objects.old) }
    ensures made { made_of objects.new ≡ made_of objects.old }
    ensures given { (names : List ℕ) → IsGiven objects.old names → IsGiven objects.new names }
    ensures flip { IfOk result (IsFlip (kept_of objects.old) time due) }
{
    match objects.at(due.surface) {
        Some(index) => {
            let shared = lend_pixels(objects, alloc, index)?;
            Ok(flip_with(due, &objects.kept()[index], time, Pixels { shared }))
        }
        None => unreachable!(),
    }
}

// The flip to a surface with these pixels.
fn flip_with(due: Due, object: &Object, time: u64, pixels: Pixels) -> Flip
    requires { ShowsPixels object.now pixels }
    ensures { (surface : OutputSurface) → object.now.content ≡ Content.Output surface → told result ≡ shown_by time due object.now surface }
{
    match &object.content {
        Content::Output(surface) => Flip {
            queue: due.name,
            window: due.window,
            surface: object.name,
            time,
            width: surface.size.luma_width(),
            height: surface.size.luma_height(),
            format: surface.format,
            pixels,
        },
        _ => unreachable!(),
    }
}
