// What is displayed on a queue.

/// A surface that is to be shown (vdpau.h, VdpPresentationQueueDisplay).
#[derive(Clone, Copy, Debug, PartialEq, Eq)]
pub struct Entry {
    /// The surface's place among all objects ever made.
    pub object: u64,
    /// It isn't shown before this time, in nanoseconds (earliest_presentation_time).
    pub earliest: u64,
}
