// The sliding rule, and frames that were left out (H.264, 8.2.5.2 and 8.2.5.3).
ghost use Rattle.std.specs.Prelude.{◌≡◌, ◌≤◌, ◌<◌, ◌^◌, ℕ};
ghost use Rattle.marking.specs.Frames.{absent_frame, after_frame_num, filled, marked, marked_absent, slid};

use super::frames::Frames;
use super::numbers::{Numbers, most_frames};
use cb_types::{ABSENT_SURFACE, Reference};

/// Where no more frames may be marked, the short-term one of least PicNum is unmarked. None where there is
/// none.
#[tactic(auto, unfolding(crate::specs::Frames::slid))]
pub fn slid(mut frames: Frames, numbers: Numbers) -> Option<Frames>
    ensures { result ≡ slid numbers frames }
{
    if frames.len() < most_frames(numbers) {
        return Some(frames);
    }
    match frames.oldest(numbers) {
        Some(place) => {
            frames.remove(place);
            Some(frames)
        }
        None => None,
    }
}

/// A frame is marked too. None where two short-term frames would have one frame_num, or more frames than
/// may be were marked.
#[tactic(auto, unfolding(crate::specs::Frames::marked))]
pub fn marked(mut frames: Frames, numbers: Numbers, one: Reference) -> Option<Frames>
    requires { numbers.max_num_ref_frames ≤ 16 }
    ensures { result ≡ marked numbers one frames }
{
    let has_same = !one.is_long_term && frames.has_frame_num(u32::from(one.frame_idx));
    if has_same || frames.len() >= most_frames(numbers) {
        return None;
    }
    frames.push(one);
    Some(frames)
}

/// An absent frame is marked, by the sliding rule with its number as the current frame_num.
#[tactic(auto, unfolding(crate::specs::Frames::marked_absent))]
fn marked_absent(frames: Frames, numbers: Numbers) -> Option<Frames>
    requires frame_num { numbers.frame_num < 2 ^ 16 }
    requires most { numbers.max_num_ref_frames ≤ 16 }
    ensures { result ≡ marked_absent numbers frames }
{
    let absent = Reference {
        surface: ABSENT_SURFACE,
        is_long_term: false,
        top_is_reference: true,
        bottom_is_reference: true,
        field_order_cnt: [0; 2],
        frame_idx: numbers.frame_num as u16,
    };
    match slid(frames, numbers) {
        Some(left) => marked(left, numbers, absent),
        None => None,
    }
}

/// An absent frame is marked for each of so many frame numbers, from that of the numbers on.
#[tactic(auto, unfolding(crate::specs::Frames::filled))]
pub fn filled(frames: Frames, numbers: Numbers, missing: u32) -> Option<Frames>
    requires some { 0 < numbers.max_frame_num }
    requires range { numbers.max_frame_num ≤ 2 ^ 16 }
    requires frame_num { numbers.frame_num < numbers.max_frame_num }
    requires most { numbers.max_num_ref_frames ≤ 16 }
    ensures { result ≡ filled missing numbers frames }
{
    let mut left = frames;
    let mut current = numbers;
    for _i in 0..missing {
        match marked_absent(left, current) {
            Some(more) => left = more,
            None => return None,
        }
        current.frame_num = (current.frame_num + 1) % current.max_frame_num;
    }
    Some(left)
}
