// Marked frames, in sixteen places.
ghost use Rattle.std.specs.Prelude.{◌≡◌, ◌≤◌, ◌<◌, ◌+◌, ◌-◌, ◌==◌, ℕ, not, ◌&&◌, ◌||◌, int_le, [], ◌∷◌, ◌++◌, length, remove, replicate, slice_set};
ghost use Rattle.std.specs.List.{list_all, list_any, position, slice_index_or};
ghost use Rattle.marking.specs.Begun.{unused};
ghost use Rattle.marking.specs.Frames.{frame_num_wrap, free_number, has_number, is_long_at, is_oldest, is_short_at};
ghost use Rattle.marking.specs.Operations.{named_pic_num, no_frame};

use super::numbers::{Numbers, frame_num_wrap, named_pic_num};
use cb_types::Reference;
use std::marker::Model;

/// The greatest number of marked frames.
pub const MAX_FRAMES: usize = 16;

/// Frames that are marked as used for reference, 16 at most.
#[derive(Drop)]
pub struct Frames {
    entries: [Reference; MAX_FRAMES],
    count: usize,
}

impl Model for Frames {
    ghost use Rattle.std.specs.Prelude.{List, length, take, ◌≡◌, ◌≤◌};
    ghost use Rattle.cb_types.specs.declared.picture_info.Reference.{Reference};

    ghost Value = { List Reference };

    ghost view = { λ f. take f.count f.entries };

    ghost invariant = { λ f. (f.count ≤ 16) × (length f.entries ≡ 16) };
}

impl Frames {
    /// No frames.
    pub fn new() -> Frames
        ensures { result ≡ [] }
    {
        Frames {
            entries: [Reference::UNUSED; MAX_FRAMES],
            count: 0,
        }
    }

    /// The same frames.
    pub fn copied(&self) -> Frames
        ensures { result ≡ self.now }
    {
        Frames {
            entries: self.entries,
            count: self.count,
        }
    }

    /// How many there are.
    pub fn len(&self) -> usize
        ensures value { result ≡ length self.now }
        ensures most { result ≤ 16 }
    {
        self.count
    }

    /// The entries of a picture info, unused ones behind the frames.
    pub fn entries(&self) -> [Reference; MAX_FRAMES]
        ensures { result ≡ self.now ++ replicate (16 - length self.now) unused }
    {
        let mut entries = [Reference::UNUSED; MAX_FRAMES];
        entries[..self.count].copy_from_slice(&self.entries[..self.count]);
        entries
    }

    /// The frame at a place.
    pub fn at(&self, place: usize) -> Reference
        requires { place < length self.now }
        ensures { result ≡ slice_index_or self.now place no_frame }
    {
        let _count = self.len();
        self.entries[place]
    }

    /// One more frame.
    pub fn push(&mut self, one: Reference)
        requires { length self.old < 16 }
        ensures { self.new ≡ self.old ++ one ∷ [] }
    {
        self.entries[self.count] = one;
        self.count += 1;
    }

    /// The frame at a place goes.
    pub fn remove(&mut self, place: usize)
        requires { place < length self.old }
        ensures { self.new ≡ remove self.old place }
    {
        self.entries.copy_within(place + 1..self.count, place);
        self.count -= 1;
    }

    /// Another frame at a place.
    pub fn set(&mut self, place: usize, one: Reference)
        requires { place < length self.old }
        ensures { self.new ≡ slice_set self.old place one }
    {
        let _count = self.len();
        self.entries[place] = one;
    }

    /// The place of the short-term frame that an operation names.
    pub fn short_at(&self, numbers: Numbers, minus1: u32) -> Option<usize>
        ensures { result ≡ position (is_short_at numbers (named_pic_num numbers minus1)) self.now }
    {
        self.entries[..self.count]
            .iter()
            .position(|frame| is_short_at(frame, numbers, minus1))
    }

    /// The place of the long-term frame with this index.
    pub fn long_at(&self, index: u32) -> Option<usize>
        ensures { result ≡ position (is_long_at index) self.now }
    {
        self.entries[..self.count]
            .iter()
            .position(|frame| is_long_at(frame, index))
    }

    /// The place of the short-term frame of least PicNum.
    pub fn oldest(&self, numbers: Numbers) -> Option<usize>
        ensures { result ≡ position (is_oldest numbers self.now) self.now }
    {
        let frames = &self.entries[..self.count];
        frames
            .iter()
            .position(|frame| is_oldest(frame, frames, numbers))
    }

    /// Whether a short-term frame has this frame_num.
    pub fn has_frame_num(&self, frame_num: u32) -> bool
        ensures { result ≡ list_any (λ other. not other.is_long_term && other.frame_idx == frame_num) self.now }
    {
        self.entries[..self.count].iter().any(|other| !other.is_long_term
            && u32::from(other.frame_idx) == frame_num)
    }

    /// Whether a frame has this number of its own.
    pub fn has_number(&self, number: u32) -> bool
        ensures { result ≡ list_any (has_number number) self.now }
    {
        self.entries[..self.count]
            .iter()
            .any(|frame| frame.surface == number)
    }

    /// The least number that no frame has.
    #[tactic(auto, unfolding(crate::specs::Frames::free_number_from))]
    pub fn free_number(&self) -> u32
        ensures { result ≡ free_number self.now }
    {
        let count = self.len() as u32;
        for number in 0..count {
            if !self.has_number(number) {
                return number;
            }
        }
        count
    }
}

fn is_short_at(frame: &Reference, numbers: Numbers, minus1: u32) -> bool
    ensures { result ≡ is_short_at numbers (named_pic_num numbers minus1) frame.now }
{
    !frame.is_long_term
        && frame_num_wrap(numbers, frame.frame_idx) == named_pic_num(numbers, minus1)
}

fn is_long_at(frame: &Reference, index: u32) -> bool
    ensures { result ≡ is_long_at index frame.now }
{
    frame.is_long_term && u32::from(frame.frame_idx) == index
}

fn is_oldest(frame: &Reference, frames: &[Reference], numbers: Numbers) -> bool
    ensures { result ≡ is_oldest numbers frames.now frame.now }
{
    !frame.is_long_term && are_no_older(frame, frames, numbers)
}

fn are_no_older(frame: &Reference, frames: &[Reference], numbers: Numbers) -> bool
    ensures { result ≡ list_all (λ other. other.is_long_term || int_le (frame_num_wrap numbers frame.now.frame_idx) (frame_num_wrap numbers other.frame_idx)) frames.now }
{
    frames
        .iter()
        .all(|other| is_no_older(frame, other, numbers))
}

fn is_no_older(frame: &Reference, other: &Reference, numbers: Numbers) -> bool
    ensures { result ≡ (other.now.is_long_term || int_le (frame_num_wrap numbers frame.now.frame_idx) (frame_num_wrap numbers other.now.frame_idx)) }
{
    other.is_long_term
        || frame_num_wrap(numbers, frame.frame_idx) <= frame_num_wrap(numbers, other.frame_idx)
}
