// What the spelling of a macroblock depends on beside itself.
ghost use Rattle.std.specs.Prelude.{◌≡◌, ◌≤◌};
ghost use Rattle.cb_types.specs.SizeMbs.{IsWithinLimits};
ghost use Rattle.cb_types.specs.Slices.{active_entries};
ghost use Rattle.mb_syntax.specs.Slice.{slice_of};

use cb_types::{Header, PictureInfo, SizeMbs};

/// A slice: the address of its first macroblock, the macroblocks across its picture and from its first
/// one on, whether it is P, and how many entries its reference list has.
#[derive(Clone, Copy)]
pub struct Slice {
    pub first: u32,
    pub width: u32,
    pub left: u32,
    pub is_p: bool,
    pub active: u32,
}

impl Slice {
    pub fn new(info: &PictureInfo, header: &Header, size: SizeMbs) -> Slice
        requires size { IsWithinLimits size }
        requires active { active_entries info.now header.now ≤ 16 }
        ensures { result ≡ slice_of info.now header.now size }
    {
        Slice {
            first: header.first_mb,
            width: size.width,
            left: size.macroblocks().saturating_sub(header.first_mb),
            is_p: header.is_p(),
            active: header.active_entries(info),
        }
    }
}
