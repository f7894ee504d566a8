// A picture's three planes.
ghost use Rattle.std.specs.Prelude.{◌≤◌, IfOk};
ghost use Rattle.vd_plane.specs.ChromaFormat.{Is420};

use crate::plane::Plane;
use cb_types::SizeMbs;
use std::alloc::{AllocError, Global};

/// A decoded picture at 4:2:0 (H.264, 6.2): luma of whole macroblocks of 16 by 16 samples, and two
/// chroma planes of half the sides.
#[derive(Drop)]
pub struct Picture {
    pub y: Plane,
    pub cb: Plane,
    pub cr: Plane,
    pub ghost format: { Is420 y cb cr },
}

impl Picture {
    ghost use Rattle.cb_types.specs.SizeMbs.{IsWithinLimits};
    ghost use Rattle.vd_plane.specs.Picture.{HasSize, IsZeros};

    /// A picture of `width_mbs` by `height_mbs` macroblocks whose samples are all 0. The sides go up to
    /// what a plane holds.
    pub fn new(alloc: Global, width_mbs: u32, height_mbs: u32) -> Result<Picture, AllocError>
        requires some_column { 1 ≤ width_mbs }
        requires columns { width_mbs ≤ 256 }
        requires some_row { 1 ≤ height_mbs }
        requires rows { height_mbs ≤ 256 }
        ensures { IfOk result (λ picture. IsZeros picture width_mbs height_mbs) }
    {
        Ok(Picture {
            y: Plane::new(alloc, 16 * width_mbs, 16 * height_mbs, 0)?,
            cb: Plane::new(alloc, 8 * width_mbs, 8 * height_mbs, 0)?,
            cr: Plane::new(alloc, 8 * width_mbs, 8 * height_mbs, 0)?,
        })
    }

    /// A picture of this size whose samples are all 0.
    pub fn of_size(alloc: Global, size: SizeMbs) -> Result<Picture, AllocError>
        requires { IsWithinLimits size }
        ensures size { IfOk result (λ picture. HasSize picture size) }
        ensures zeros { IfOk result (λ picture. IsZeros picture size.width size.height) }
    {
        Picture::new(alloc, size.width, size.height)
    }
}
