// What the driver's calls answer.
use std::collections::LinkedList;

/// The parameters of a video surface (vdpau.h, VdpVideoSurfaceGetParameters). The sides are in luma samples.
#[derive(Clone, Copy, Debug, PartialEq, Eq)]
pub struct SurfaceSize {
    pub chroma: u32,
    pub width: u32,
    pub height: u32,
}

/// What decoders of a profile can do (vdpau.h, VdpDecoderQueryCapabilities). The sides are in luma samples.
#[derive(Clone, Copy, Debug, PartialEq, Eq)]
pub struct Capabilities {
    pub supported: bool,
    pub max_macroblocks: u32,
    pub max_width: u32,
    pub max_height: u32,
}

/// How a surface stands to the presentation queues (vdpau.h, VdpPresentationQueueStatus).
#[derive(Clone, Copy, Debug, PartialEq, Eq)]
pub enum PresentStatus {
    /// VDP_PRESENTATION_QUEUE_STATUS_IDLE: neither on display nor in line.
    Idle,
    /// VDP_PRESENTATION_QUEUE_STATUS_QUEUED: in line on some queue.
    Queued,
    /// VDP_PRESENTATION_QUEUE_STATUS_VISIBLE: on display on some queue.
    Visible,
}

/// The status of a surface, and when it was last shown first on a queue (first_presentation_time of
/// VdpPresentationQueueQuerySurfaceStatus), 0 where its last flip was on another queue or there was none.
#[derive(Clone, Copy, Debug, PartialEq, Eq)]
pub struct Shown {
    pub status: PresentStatus,
    pub first_time: u64,
}

/// How many surfaces and queue entries the driver keeps.
#[derive(Clone, Copy, Debug, PartialEq, Eq)]
pub struct KeptCounts {
    pub surfaces: u32,
    pub entries: u32,
}

/// A flip as a history keeps it: a queue has shown a surface from this time on, with these bytes. The
/// surface's name may be dead. No value of this type is made: it is there for proofs.
pub struct Flipped {
    pub queue: u32,
    pub window: u32,
    pub surface: u32,
    pub time: u64,
    pub width: u32,
    pub height: u32,
    pub format: u32,
    pub bytes: LinkedList<u8>,
}

/// What a call answers where it isn't refused, with what it puts into the caller's buffers. No value of
/// this type is made: it is there for proofs.
pub enum Answer {
    /// It was done, and there is nothing to tell.
    Done,
    /// The name of a new object.
    Name(u32),
    Size(SurfaceSize),
    Bytes(LinkedList<u8>),
    Supports(Capabilities),
    Status(Shown),
    Time(u64),
    Flips(LinkedList<Flipped>),
    /// Which wish holds, by its number in the list: the earliest, if several do.
    Holds(Option<u32>),
    Counts(KeptCounts),
}
