// What is marked while the operations of a picture are done.
use super::counts::Counts;
use super::frames::Frames;

/// The marked frames; the long-term index of the picture itself; indices below `indices` are allowed; and
/// whether operation 5 was done.
#[derive(Drop)]
pub struct Marks {
    pub frames: Frames,
    pub current: Option<u32>,
    pub indices: u32,
    pub is_reset: bool,
}

/// The picture itself: its own number, its frame_num and its picture order counts.
#[derive(Clone, Copy, Debug)]
pub struct Own {
    pub number: u32,
    pub frame_num: u32,
    pub counts: Counts,
}
