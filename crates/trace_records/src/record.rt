// What a record says.
use driver_model::PresentStatus;

/// A call with its answer, or a flip that an `Advance` brought. Names and windows have 32 bits, times 64.
#[derive(Clone, Copy, Debug, PartialEq, Eq)]
pub enum Event {
    /// VdpDeviceCreateX11 (vdpau_x11.h) answered the device's name.
    DeviceCreate {
        name: u32,
    },
    /// VdpDeviceDestroy.
    DeviceDestroy {
        device: u32,
    },
    /// VdpOutputSurfaceCreate answered the surface's name.
    OutputCreate {
        name: u32,
        device: u32,
    },
    /// VdpOutputSurfaceDestroy.
    OutputDestroy {
        surface: u32,
    },
    /// VdpPresentationQueueCreate answered the queue's name.
    QueueCreate {
        name: u32,
        device: u32,
        window: u32,
    },
    /// VdpPresentationQueueDestroy.
    QueueDestroy {
        queue: u32,
    },
    /// VdpPresentationQueueDisplay, not to be shown before this time.
    QueueDisplay {
        queue: u32,
        surface: u32,
        earliest: u64,
    },
    /// VdpPresentationQueueQuerySurfaceStatus answered this status and this first presentation time.
    QueryStatus {
        queue: u32,
        surface: u32,
        status: PresentStatus,
        time: u64,
    },
    /// VdpPresentationQueueBlockUntilSurfaceIdle answered this first presentation time.
    BlockUntilIdle {
        queue: u32,
        surface: u32,
        time: u64,
    },
    /// VdpPresentationQueueGetTime answered this time.
    GetTime {
        queue: u32,
        time: u64,
    },
    /// Nothing earlier than this time will be displayed on the queue.
    Promise {
        queue: u32,
        time: u64,
    },
    /// A tick of the device's clock to this time, with so many flips, whose records follow.
    Advance {
        device: u32,
        flips: u64,
        time: u64,
    },
    /// At this time, a tick's, the queue has shown this surface.
    Flip {
        queue: u32,
        surface: u32,
        time: u64,
    },
    /// The display is preempted (VdpPreemptionCallback).
    Preempt {
        device: u32,
    },
}

/// An event of a driver's history, and its place there: that of the call. A flip has the place of the
/// `Advance` that brought it.
#[derive(Clone, Copy, Debug, PartialEq, Eq)]
pub struct Record {
    pub place: u64,
    pub event: Event,
}
