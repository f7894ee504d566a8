//! The deblocking filter.
#![tactic(auto)]

ghost use Rattle.std.specs.Prelude.{◌≡◌};
ghost use Rattle.cb_types.specs.AcceptedInfo.{IsAcceptedBySome};
ghost use Rattle.cb_types.specs.SizeMbs.{IsWithinLimits};
ghost use Rattle.vd_plane.specs.Picture.{HasSize};
ghost use Rattle.deblock.specs.Deblocked.{deblocked_chroma, deblocked_luma};
ghost use Rattle.deblock.specs.Marks.{AreMarks};

use cb_types::{MbMark, PictureInfo, SizeMbs};
pub use laws::{far_chroma_stays, far_luma_stays, unfiltered_planes_stay};
use macroblocks::filter_planes;
use vd_plane::Picture;

mod edges;
mod filters;
mod laws;
mod line;
mod macroblocks;
mod strength;
mod thresholds;

/// Filters a constructed picture in place (H.264, 8.7), by one mark for each macroblock in the order of
/// addresses.
///
/// Macroblocks are filtered one after the other, in each the vertical edges from the left and then the
/// horizontal edges from the top. Of the picture info it takes chroma_qp_index_offset.
pub fn filter(info: &PictureInfo, size: SizeMbs, marks: &[MbMark], picture: &mut Picture)
    requires info { IsAcceptedBySome info.now }
    requires size { IsWithinLimits size }
    requires marks { AreMarks size marks.now }
    requires picture { HasSize picture.old size }
    ensures y { picture.new.y ≡ deblocked_luma size marks.now picture.old.y }
    ensures cb { picture.new.cb ≡ deblocked_chroma info.now.chroma_qp_index_offset size marks.now picture.old.cb }
    ensures cr { picture.new.cr ≡ deblocked_chroma info.now.chroma_qp_index_offset size marks.now picture.old.cr }
{
    filter_planes(
        info,
        size,
        marks,
        picture.y.samples_mut(),
        picture.cb.samples_mut(),
        picture.cr.samples_mut(),
    );
}
