//! The types that the decoder's crates share.
#![tactic(auto)]

mod header;
mod info_fields;
mod laws;
mod macroblock;
mod mark;
mod neighbours;
mod picture_info;
mod size;

pub use header::{EntryWeights, Header, ListEdit, Marking, Mmco, UnitHead, Weight, Weights};
pub use info_fields::first_refused_field;
pub use laws::{blocks_have_places, neighbours_stand_beside};
pub use macroblock::{ChromaLevels, DcLevels, Levels, Macroblock, MbKind, Mode, Part, Sub, Vector};
pub use mark::MbMark;
pub use neighbours::{beside, block_x, block_y};
pub use picture_info::{
    ABSENT_SURFACE, PictureInfo, Reference, ScalingList4x4, ScalingList8x8, UNUSED_SURFACE,
};
pub use size::{MAX_PICTURE_MBS, MAX_SIDE_MBS, SizeMbs};
