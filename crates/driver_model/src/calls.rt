// The driver's calls and their arguments.
use cb_types::PictureInfo;
use std::collections::LinkedList;

/// What a caller may wait for.
#[derive(Clone, Copy, Debug, PartialEq, Eq)]
pub enum Wish {
    /// The output surface is idle (VDP_PRESENTATION_QUEUE_STATUS_IDLE).
    OutputIdle { surface: u32 },
    /// No job writes the video surface.
    VideoHome { surface: u32 },
    /// No job writes the output surface.
    OutputHome { surface: u32 },
    /// Nothing that is yet to be displayed on the queue can be for this time or an earlier one.
    PromisePast { queue: u32, time: u64 },
}

/// A call with its arguments, as a history keeps it: bytes that are handed in are a list, and of a buffer
/// that is to be filled its length is kept. No value of this type is made: it is there for proofs.
///
/// A job, which callers begin, run and end, is one call here: `Render` or `Mix`.
pub enum Call {
    /// VdpDeviceCreateX11 (vdpau_x11.h).
    DeviceCreate,
    /// VdpDeviceDestroy.
    DeviceDestroy {
        device: u32,
    },
    /// VdpVideoSurfaceCreate.
    VideoCreate {
        device: u32,
        chroma: u32,
        width: u32,
        height: u32,
    },
    /// VdpVideoSurfaceGetParameters.
    VideoParameters {
        surface: u32,
    },
    /// VdpVideoSurfaceGetBitsYCbCr.
    VideoGetBits {
        surface: u32,
        format: u32,
        length: u64,
    },
    /// VdpVideoSurfacePutBitsYCbCr.
    VideoPutBits {
        surface: u32,
        format: u32,
        bytes: LinkedList<u8>,
    },
    /// VdpVideoSurfaceDestroy.
    VideoDestroy {
        surface: u32,
    },
    /// VdpOutputSurfaceCreate.
    OutputCreate {
        device: u32,
        format: u32,
        width: u32,
        height: u32,
    },
    /// VdpOutputSurfaceGetBitsNative.
    OutputGetBits {
        surface: u32,
        length: u64,
    },
    /// VdpOutputSurfacePutBitsNative.
    OutputPutBits {
        surface: u32,
        bytes: LinkedList<u8>,
    },
    /// VdpOutputSurfaceDestroy.
    OutputDestroy {
        surface: u32,
    },
    /// VdpDecoderQueryCapabilities.
    DecoderQuery {
        device: u32,
        profile: u32,
    },
    /// VdpDecoderCreate.
    DecoderCreate {
        device: u32,
        profile: u32,
        width: u32,
        height: u32,
        max_references: u32,
    },
    /// VdpDecoderDestroy.
    DecoderDestroy {
        decoder: u32,
    },
    /// VdpVideoMixerCreate.
    MixerCreate {
        device: u32,
        width: u32,
        height: u32,
    },
    /// VdpVideoMixerSetAttributeValues, of the colour conversion matrix (VdpCSCMatrix).
    MixerSetMatrix {
        mixer: u32,
        matrix: [i32; 12],
    },
    /// VdpVideoMixerDestroy.
    MixerDestroy {
        mixer: u32,
    },
    /// VdpPresentationQueueCreate, whose target is a numbered window.
    QueueCreate {
        device: u32,
        window: u32,
    },
    /// VdpPresentationQueueDestroy.
    QueueDestroy {
        queue: u32,
    },
    /// VdpPresentationQueueDisplay.
    QueueDisplay {
        queue: u32,
        surface: u32,
        earliest: u64,
    },
    /// VdpPresentationQueueQuerySurfaceStatus.
    QueryStatus {
        queue: u32,
        surface: u32,
    },
    /// VdpPresentationQueueBlockUntilSurfaceIdle.
    BlockUntilIdle {
        queue: u32,
        surface: u32,
    },
    /// VdpPresentationQueueGetTime.
    GetTime {
        queue: u32,
    },
    /// Nothing earlier than this time will be displayed on the queue.
    Promise {
        queue: u32,
        time: u64,
    },
    /// A tick of the device's clock.
    Advance {
        device: u32,
        time: u64,
    },
    /// The display is preempted (VdpPreemptionCallback).
    Preempt {
        device: u32,
    },
    /// Asks which wish holds.
    Poll {
        wishes: LinkedList<Wish>,
    },
    /// Waits until a wish holds.
    WaitUntil {
        wishes: LinkedList<Wish>,
    },
    /// Asks how many surfaces and entries the driver keeps.
    Kept,
    /// VdpDecoderRender. The bytes are those of all bitstream buffers, one behind the other.
    Render {
        decoder: u32,
        target: u32,
        info: PictureInfo,
        bytes: LinkedList<u8>,
    },
    /// VdpVideoMixerRender.
    Mix {
        mixer: u32,
        structure: u32,
        video: u32,
        output: u32,
    },
}
