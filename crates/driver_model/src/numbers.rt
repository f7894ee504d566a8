// The numbers that callers and the driver agree on, and the driver's limits.
use cb_types::MAX_SIDE_MBS;

// The kinds of objects, which a name says in its highest three bits. The numbers are this project's own.
pub const DEVICE: u32 = 0;

pub const VIDEO_SURFACE: u32 = 1;

pub const OUTPUT_SURFACE: u32 = 2;

pub const DECODER: u32 = 3;

pub const VIDEO_MIXER: u32 = 4;

pub const PRESENTATION_QUEUE: u32 = 5;

/// The chroma type 4:2:0 (VDP_CHROMA_TYPE_420), the one that there is.
pub const CHROMA_420: u32 = 0;

/// The decoder profile Constrained Baseline (H.264, A.2.1.1). The number is this project's own: vdpau.h has another.
pub const CONSTRAINED_BASELINE: u32 = 0;

/// Constrained Baseline whose P slices may weight predictions (weighted_pred_flag): a profile of this project's own.
pub const WEIGHTED_BASELINE: u32 = 1;

/// The picture structure of a whole frame (VDP_VIDEO_MIXER_PICTURE_STRUCTURE_FRAME), the one that there is.
pub const FRAME: u32 = 0;

/// So many luma samples a side has at most.
pub const MAX_SIDE: u32 = 16 * MAX_SIDE_MBS;

/// So many objects live at most.
pub const MAX_OBJECTS: u32 = 1024;

/// So many devices live at most.
pub const MAX_DEVICES: u32 = 16;

/// So many presentation queues live at most.
pub const MAX_QUEUES: u32 = 64;

/// So many references a decoder takes at most.
pub const MAX_REFERENCES: u32 = 16;

/// When so many names were given, a create may find none to give: so many places in a table, each with as many
/// generations.
pub const MANY_NAMES: u64 = 7168 * 65_536;
