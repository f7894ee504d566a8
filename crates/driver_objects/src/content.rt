// What objects have, by their kinds (vdpau.h, the opaque handle types).
use crate::stored::Stored;
use cb_types::SizeMbs;
use vd_plane::Picture;

/// What a device has (VdpDevice).
#[derive(Clone, Copy)]
pub struct Device {
    /// The time of its last tick, in nanoseconds.
    pub time: u64,
    pub is_preempted: bool,
}

/// What a video surface has (VdpVideoSurface).
#[derive(Drop)]
pub struct VideoSurface {
    pub size: SizeMbs,
    pub samples: Stored<Picture>,
}

/// On which queue, by its place among all objects ever made, and when a surface was shown.
#[derive(Clone, Copy)]
pub struct LastFlip {
    pub queue: u64,
    pub time: u64,
}

/// What an output surface has (VdpOutputSurface).
#[derive(Drop)]
pub struct OutputSurface {
    pub format: u32,
    pub size: SizeMbs,
    /// Row by row, four bytes for each pixel.
    pub pixels: Stored<Vec<u8>>,
    pub last_flip: Option<LastFlip>,
    /// Its number in the presentation queues.
    pub holder: u32,
}

/// What a decoder has (VdpDecoder).
#[derive(Clone, Copy)]
pub struct Decoder {
    pub profile: u32,
    pub size: SizeMbs,
    pub max_references: u32,
}

/// What a mixer has (VdpVideoMixer).
#[derive(Clone, Copy)]
pub struct VideoMixer {
    pub size: SizeMbs,
    /// The rows of red, green and blue: the coefficients of Y, Cb and Cr, and a constant.
    pub matrix: [i32; 12],
}

/// What a presentation queue has (VdpPresentationQueue).
#[derive(Clone, Copy)]
pub struct PresentationQueue {
    pub window: u32,
    /// Its number among the presentation queues.
    pub number: u32,
}

/// What an object has.
#[derive(Drop)]
pub enum Content {
    Device(Device),
    Video(VideoSurface),
    Output(OutputSurface),
    Decoder(Decoder),
    Mixer(VideoMixer),
    Queue(PresentationQueue),
}
