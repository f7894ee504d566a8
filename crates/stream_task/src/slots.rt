// Which video surface has which picture.
ghost use Rattle.stream_task.specs.Within.{AreApart, AreSurfaces};

use crate::objects::VIDEOS;

/// As many own numbers pictures have: those of sixteen references, and one more.
pub const NUMBERS: usize = 17;

/// Which picture is in which video surface, by the surfaces' numbers.
#[derive(Drop)]
pub struct Slots {
    // The surface of the picture that was last decoded with an own number.
    of_number: [usize; NUMBERS],
    // The picture that is in a surface and may still be shown.
    waits: [Option<u32>; VIDEOS],
    ghost within: { AreSurfaces of_number },
    ghost apart: { AreApart of_number },
}

impl Slots {
    ghost use Rattle.std.specs.Prelude.{◌≡◌, ◌≢◌, ◌<◌, ◌≤◌, ◌==◌, ℕ, Some, None, length, slice_set};
    ghost use Rattle.std.specs.List.{list_any};
    ghost use Rattle.stream_task.specs.Surfaces.{IsFree, IsIn, surface_of, waiting_in};

    /// No picture was decoded.
    pub fn new() -> Slots
        ensures places { length result.waits ≡ VIDEOS }
        ensures none { waiting_in result ≡ 0 }
        ensures free { (surface picture : ℕ) → IsIn result surface picture → ⊥ }
    {
        let mut of_number = [0; NUMBERS];
        for number in 0..NUMBERS {
            of_number[number] = number;
        }
        Slots {
            of_number,
            waits: [None; VIDEOS],
        }
    }

    /// The surface of the picture that was last decoded with this own number.
    pub fn of_number(&self, number: usize) -> usize
        requires { number < NUMBERS }
        ensures within { result < VIDEOS }
        ensures is { result ≡ surface_of self.now number }
    {
        self.of_number[number]
    }

    /// A surface for the next picture with this own number: neither one of another own number, nor one whose
    /// picture may still be shown.
    pub fn free_for(&self, number: usize) -> usize
        requires number { number < NUMBERS }
        requires few { waiting_in self.now ≤ 17 }
        ensures within { result < VIDEOS }
        ensures free { IsFree self.now result }
        ensures others { (other : ℕ) → other < NUMBERS → other ≢ number → surface_of self.now other ≢ result }
    {
        let last = self.of_number[number];
        if self.waits[last].is_none() {
            return last;
        }
        for surface in 0..VIDEOS {
            if self.waits[surface].is_none() && !self.has_number(surface) {
                return surface;
            }
        }
        unreachable!()
    }

    // The surface is that of an own number.
    fn has_number(&self, surface: usize) -> bool
        ensures { result ≡ list_any (λ other. other == surface) self.now.of_number }
    {
        self.of_number.contains(&surface)
    }

    /// The picture with this own number was decoded into this surface. There it waits to be shown.
    pub fn decoded(&mut self, number: usize, surface: usize, picture: u32)
        requires number { number < NUMBERS }
        requires surface { surface < VIDEOS }
        requires apart { (other : ℕ) → other < NUMBERS → other ≢ number → surface_of self.old other ≢ surface }
        ensures of_number { self.new.of_number ≡ slice_set self.old.of_number number surface }
        ensures waits { self.new.waits ≡ slice_set self.old.waits surface (Some picture) }
    {
        self.of_number[number] = surface;
        self.waits[surface] = Some(picture);
    }

    /// The surface of the picture that waits by this number.
    pub fn waiting(&self, picture: u32) -> usize
        requires { (surface : ℕ) × IsIn self.now surface picture }
        ensures within { result < VIDEOS }
        ensures is { IsIn self.now result picture }
    {
        for surface in 0..VIDEOS {
            if self.waits[surface] == Some(picture) {
                return surface;
            }
        }
        unreachable!()
    }

    /// The picture in this surface isn't to be shown any more.
    pub fn release(&mut self, surface: usize)
        requires { surface < VIDEOS }
        ensures of_number { self.new.of_number ≡ self.old.of_number }
        ensures waits { self.new.waits ≡ slice_set self.old.waits surface None }
    {
        self.waits[surface] = None;
    }
}
