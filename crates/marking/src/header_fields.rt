// The picture info by which slice headers are read.
ghost use Rattle.std.specs.Prelude.{◌≡◌};
ghost use Rattle.cb_types.specs.AcceptedInfo.{IsAccepted};
ghost use Rattle.param_sets.specs.Accepted.{IsAcceptedPps, IsAcceptedSps};
ghost use Rattle.marking.specs.HeaderInfo.{header_info};

use super::counts::Counts;
use super::frames::Frames;
use super::info::info_of;
use cb_types::{Header, ListEdit, Marking, PictureInfo, UnitHead, Weights};
use param_sets::{Pps, Sps};

/// The picture info by which a slice header that names these parameter sets is read, before its picture is
/// known: all that a header's elements depend on is the sets'. It has no references, and 0 for what a
/// header says.
pub fn header_info(sps: &Sps, pps: &Pps) -> PictureInfo
    requires sps { IsAcceptedSps sps.now }
    requires pps { IsAcceptedPps pps.now }
    ensures value { result ≡ header_info sps.now pps.now }
    ensures accepted { IsAccepted 0 sps.now.max_num_ref_frames result }
{
    let counts = Counts { top: 0, bottom: 0 };
    info_of(sps, pps, &NO_HEADER, counts, Frames::new().entries())
}

const NO_HEADER: Header = Header {
    head: UnitHead {
        ref_idc: 0,
        unit_type: 0,
    },
    first_mb: 0,
    slice_type: 0,
    pps: 0,
    frame_num: 0,
    idr_pic_id: 0,
    poc_lsb: 0,
    delta_bottom: 0,
    delta_poc: [0; 2],
    active_override: None,
    edited: false,
    edit_count: 0,
    edits: [ListEdit::Subtract(0); 16],
    weights: Weights::NONE,
    marking: Marking::Absent,
    qp_delta: 0,
    deblock_idc: 0,
    alpha_half: 0,
    beta_half: 0,
};
