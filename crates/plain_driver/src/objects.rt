// What the program keeps of each object that was ever made.
ghost use Rattle.std.specs.Prelude.{◌≡◌, ◌≤◌, length, vec_capacity};
ghost use Rattle.cb_types.specs.SizeMbs.{IsWithinLimits};
ghost use Rattle.driver_model.specs.Sizes.{pixel_bytes};
ghost use Rattle.mixer.specs.declared.TheConstants.{R8G8B8A8};
ghost use Rattle.vd_plane.specs.Picture.{HasSize};

use cb_types::SizeMbs;
use decoder_render::Outcome;
use vd_plane::Picture;

/// A device: the time of its clock, and whether its display is preempted.
#[derive(Clone, Copy)]
pub struct PlainDevice {
    pub time: u64,
    pub is_preempted: bool,
}

/// A video surface.
#[derive(Drop)]
pub struct PlainVideo {
    pub size: SizeMbs,
    pub picture: Picture,
    pub ghost within: { IsWithinLimits size },
    pub ghost sides: { HasSize picture size },
}

/// On which queue, by its place, and when a surface was shown.
#[derive(Clone, Copy)]
pub struct PlainFlip {
    pub queue: usize,
    pub time: u64,
}

/// An output surface, with its pixels row by row.
#[derive(Drop)]
pub struct PlainOutput {
    pub format: u32,
    pub size: SizeMbs,
    pub bytes: Vec<u8>,
    pub last_flip: Option<PlainFlip>,
    pub ghost within: { IsWithinLimits size },
    pub ghost count: { length bytes.items ≡ pixel_bytes size },
    pub ghost known: { format ≤ R8G8B8A8 },
}

/// A decoder.
#[derive(Clone, Copy)]
pub struct PlainDecoder {
    pub profile: u32,
    pub size: SizeMbs,
    pub max_references: u32,
}

/// A video mixer.
#[derive(Clone, Copy)]
pub struct PlainMixer {
    pub size: SizeMbs,
    pub matrix: [i32; 12],
}

/// A surface, by its place, that waits to be shown.
#[derive(Clone, Copy)]
pub struct PlainQueued {
    pub surface: usize,
    pub earliest: u64,
}

/// A presentation queue. There is always room for its entries.
#[derive(Drop)]
pub struct PlainQueue {
    pub window: u32,
    pub entries: Vec<PlainQueued>,
    pub visible: Option<usize>,
    pub promise: u64,
    pub ghost few: { length entries.items ≤ 64 },
    pub ghost room: { 64 ≤ vec_capacity entries },
}

/// What an object has, by its kind.
#[derive(Drop)]
pub enum PlainContent {
    Device(PlainDevice),
    Video(PlainVideo),
    Output(PlainOutput),
    Decoder(PlainDecoder),
    Mixer(PlainMixer),
    Queue(PlainQueue),
}

/// An object that was made: its name, the place of its device, whether it lives, and what it has.
#[derive(Drop)]
pub struct PlainObject {
    pub name: u32,
    pub device: usize,
    pub is_live: bool,
    pub content: PlainContent,
}

/// A job that runs: at which item it was begun and by whom, the place of the object that it writes, how it
/// will end, and its number.
#[derive(Drop)]
pub struct PlainNote {
    pub place: u64,
    pub caller: Vec<u64>,
    pub target: usize,
    pub outcome: Outcome,
    pub number: usize,
}
