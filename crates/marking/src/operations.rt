// Memory management control operations (H.264, 8.2.5.4), and the marks behind a picture.
ghost use Rattle.std.specs.Prelude.{◌≡◌, ◌≤◌, ◌<◌, ◌^◌, length, take, IfSome};
ghost use Rattle.marking.specs.Operations.{HasIndices, HasRoom, counts_in_range, has_index, index_below, index_without, made_long, marks_after, marks_of, marks_of_idr, operated, operated_by_all, own_counts, own_frame, with_indices_below, with_own, without_index};

use super::counts::{Counts, from_zero};
use super::frames::Frames;
use super::marks::{Marks, Own};
use super::numbers::Numbers;
use super::sliding::{marked, slid};
use cb_types::{Header, Marking, Mmco, Reference};

/// No long-term frame keeps the index.
fn without_index(frames: Frames, index: u32) -> Frames
    ensures { result ≡ without_index index frames }
{
    let mut kept = Frames::new();
    for place in 0..frames.len() {
        let frame = frames.at(place);
        if !(frame.is_long_term && u32::from(frame.frame_idx) == index) {
            kept.push(frame);
        }
    }
    kept
}

/// Long-term frames keep only indices below this.
fn with_indices_below(frames: Frames, indices: u32) -> Frames
    ensures { result ≡ with_indices_below indices frames }
{
    let mut kept = Frames::new();
    for place in 0..frames.len() {
        let frame = frames.at(place);
        if !frame.is_long_term || u32::from(frame.frame_idx) < indices {
            kept.push(frame);
        }
    }
    kept
}

/// The short-term frame at a place gets the index, which was freed before. None where it is an absent one.
#[tactic(auto, unfolding(crate::specs::Operations::made_long))]
fn made_long(marks: Marks, index: u32, freed: Frames, place: usize) -> Option<Marks>
    requires place { place < length freed }
    requires indices { HasIndices marks }
    requires index { index < marks.indices }
    ensures value { result ≡ made_long marks index freed place }
    ensures indices { IfSome result HasIndices }
{
    let mut frames = freed;
    let mut frame = frames.at(place);
    if frame.is_absent() {
        return None;
    }
    frame.is_long_term = true;
    frame.frame_idx = index as u16;
    frames.set(place, frame);
    Some(Marks {
        frames,
        current: index_without(index, marks.current),
        indices: marks.indices,
        is_reset: marks.is_reset,
    })
}

fn has_index(index: u32, own: Option<u32>) -> bool
    ensures { result ≡ has_index index own }
{
    match own {
        Some(own) => own == index,
        None => false,
    }
}

fn index_without(index: u32, own: Option<u32>) -> Option<u32>
    ensures { result ≡ index_without index own }
{
    if has_index(index, own) { None } else { own }
}

fn index_below(indices: u32, own: Option<u32>) -> Option<u32>
    ensures { result ≡ index_below indices own }
{
    match own {
        Some(own) if own < indices => Some(own),
        _ => None,
    }
}

/// The marks before operations.
fn marks_of(frames: Frames, indices: u32) -> Marks
    ensures { result ≡ marks_of frames indices }
{
    Marks {
        frames,
        current: None,
        indices,
        is_reset: false,
    }
}

#[tactic(auto, unfolding(crate::specs::Operations::operated))]
fn unmarked_short(mut marks: Marks, numbers: Numbers, minus1: u32) -> Option<Marks>
    ensures { result ≡ operated numbers marks (Mmco.UnmarkShort minus1) }
{
    match marks.frames.short_at(numbers, minus1) {
        Some(place) => {
            marks.frames.remove(place);
            Some(marks)
        }
        None => None,
    }
}

#[tactic(auto, unfolding(crate::specs::Operations::operated))]
fn unmarked_long(mut marks: Marks, numbers: Numbers, index: u32) -> Option<Marks>
    ensures { result ≡ operated numbers marks (Mmco.UnmarkLong index) }
{
    if has_index(index, marks.current) {
        marks.current = None;
        return Some(marks);
    }
    match marks.frames.long_at(index) {
        Some(place) => {
            marks.frames.remove(place);
            Some(marks)
        }
        None => None,
    }
}

#[tactic(auto, unfolding(crate::specs::Operations::operated))]
fn with_long(marks: Marks, numbers: Numbers, minus1: u32, index: u32) -> Option<Marks>
    requires { HasIndices marks }
    ensures value { result ≡ operated numbers marks (Mmco.MakeLong minus1 index) }
    ensures indices { IfSome result HasIndices }
{
    if index >= marks.indices {
        return None;
    }
    let freed = without_index(marks.frames.copied(), index);
    match freed.short_at(numbers, minus1) {
        Some(place) => made_long(marks, index, freed, place),
        None => None,
    }
}

#[tactic(auto, unfolding(crate::specs::Operations::operated))]
fn with_indices(marks: Marks, numbers: Numbers, indices: u32) -> Option<Marks>
    ensures { result ≡ operated numbers marks (Mmco.MaxLong indices) }
{
    if indices > numbers.max_num_ref_frames {
        return None;
    }
    Some(Marks {
        frames: with_indices_below(marks.frames.copied(), indices),
        current: index_below(indices, marks.current),
        indices,
        is_reset: marks.is_reset,
    })
}

#[tactic(auto, unfolding(crate::specs::Operations::operated))]
fn with_current_long(marks: Marks, numbers: Numbers, index: u32) -> Option<Marks>
    ensures { result ≡ operated numbers marks (Mmco.CurrentLong index) }
{
    let _numbers = numbers;
    if index >= marks.indices {
        return None;
    }
    Some(Marks {
        frames: without_index(marks.frames.copied(), index),
        current: Some(index),
        indices: marks.indices,
        is_reset: marks.is_reset,
    })
}

/// What an operation does. None where it isn't allowed.
#[tactic(auto, unfolding(crate::specs::Operations::operated))]
fn operated(marks: Marks, numbers: Numbers, operation: Mmco) -> Option<Marks>
    requires indices { HasIndices marks }
    requires most { numbers.max_num_ref_frames ≤ 16 }
    ensures value { result ≡ operated numbers marks operation }
    ensures indices { IfSome result HasIndices }
{
    match operation {
        Mmco::UnmarkShort(minus1) => unmarked_short(marks, numbers, minus1),
        Mmco::UnmarkLong(index) => unmarked_long(marks, numbers, index),
        Mmco::MakeLong(minus1, index) => with_long(marks, numbers, minus1, index),
        Mmco::MaxLong(indices) => with_indices(marks, numbers, indices),
        Mmco::Reset => Some(Marks {
            frames: Frames::new(),
            current: None,
            indices: 0,
            is_reset: true,
        }),
        Mmco::CurrentLong(index) => with_current_long(marks, numbers, index),
    }
}

/// What the first operations of a list do, one after the other.
#[tactic(auto, unfolding(crate::specs::Operations::operated_by_all))]
fn operated_by_all(
    marks: Marks,
    numbers: Numbers,
    operations: &[Mmco; 64],
    count: u32,
) -> Option<Marks>
    requires indices { HasIndices marks }
    requires most { numbers.max_num_ref_frames ≤ 16 }
    requires count { count ≤ 64 }
    ensures value { result ≡ operated_by_all numbers (take count operations.now) marks }
    ensures indices { IfSome result HasIndices }
{
    let mut done = marks;
    for place in 0..count as usize {
        match operated(done, numbers, operations[place]) {
            Some(next) => done = next,
            None => return None,
        }
    }
    Some(done)
}

/// The counts that a picture keeps.
fn own_counts(own: Own, is_reset: bool) -> Option<Counts>
    ensures { result ≡ counts_in_range (own_counts is_reset own.counts) }
{
    if is_reset {
        from_zero(own.counts)
    } else {
        Some(own.counts)
    }
}

/// The picture itself as a marked frame, with the counts that it keeps.
fn own_frame(own: Own, counts: Counts, is_reset: bool, current: Option<u32>) -> Reference
    requires frame_num { own.frame_num < 2 ^ 16 }
    requires index { IfSome current (λ index. index < 16) }
    ensures { counts ≡ own_counts is_reset own.counts → result ≡ own_frame own is_reset current }
{
    let frame_num = if is_reset { 0 } else { own.frame_num };
    let (is_long_term, frame_idx) = match current {
        Some(index) => (true, index),
        None => (false, frame_num),
    };
    Reference {
        surface: own.number,
        is_long_term,
        top_is_reference: true,
        bottom_is_reference: true,
        field_order_cnt: [counts.top, counts.bottom],
        frame_idx: frame_idx as u16,
    }
}

/// The picture itself is marked behind the operations.
#[tactic(auto, unfolding(crate::specs::Operations::with_own))]
fn with_own(marks: Marks, numbers: Numbers, own: Own) -> Option<Marks>
    requires indices { HasIndices marks }
    requires most { numbers.max_num_ref_frames ≤ 16 }
    requires frame_num { own.frame_num < 2 ^ 16 }
    ensures value { result ≡ with_own numbers own marks }
    ensures indices { IfSome result (λ after. after.indices ≤ 16) }
{
    let Marks {
        frames,
        current,
        indices,
        is_reset,
    } = marks;
    let Some(counts) = own_counts(own, is_reset) else {
        return None;
    };
    match marked(frames, numbers, own_frame(own, counts, is_reset, current)) {
        Some(frames) => Some(Marks {
            frames,
            current,
            indices,
            is_reset,
        }),
        None => None,
    }
}

/// The marks behind an IDR picture.
fn marks_of_idr(own: Own, long_term: bool) -> Marks
    requires { own.frame_num < 2 ^ 16 }
    ensures { result ≡ marks_of_idr own long_term }
{
    let current = if long_term { Some(0) } else { None };
    let mut frames = Frames::new();
    frames.push(own_frame(own, own.counts, false, current));
    Marks {
        frames,
        current,
        indices: u32::from(long_term),
        is_reset: false,
    }
}

/// The marks behind a picture. None where its marking isn't allowed.
#[tactic(auto, unfolding(crate::specs::Operations::marks_after))]
pub fn marks_after(
    frames: Frames,
    indices: u32,
    numbers: Numbers,
    own: Own,
    header: &Header,
) -> Option<Marks>
    requires indices { indices ≤ 16 }
    requires most { numbers.max_num_ref_frames ≤ 16 }
    requires frame_num { own.frame_num < 2 ^ 16 }
    requires room { HasRoom header.now.marking }
    ensures value { result ≡ marks_after numbers own header.now frames indices header.now.marking }
    ensures indices { IfSome result (λ marks. marks.indices ≤ 16) }
{
    match &header.marking {
        Marking::Absent => {
            if header.is_idr() {
                None
            } else {
                Some(marks_of(frames, indices))
            }
        }
        Marking::Idr { long_term, .. } => Some(marks_of_idr(own, *long_term)),
        Marking::Sliding => {
            match slid(frames, numbers) {
                Some(left) => with_own(marks_of(left, indices), numbers, own),
                None => None,
            }
        }
        Marking::Operations { count, list } => {
            match operated_by_all(marks_of(frames, indices), numbers, list, *count) {
                Some(done) => with_own(done, numbers, own),
                None => None,
            }
        }
    }
}
