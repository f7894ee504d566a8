// The picture info, from the parameter sets and the header.
ghost use Rattle.std.specs.Prelude.{◌≡◌, ◌<◌, ◌^◌};
ghost use Rattle.param_sets.specs.Accepted.{IsAcceptedPps, IsAcceptedSps};
ghost use Rattle.marking.specs.Begun.{info_of};

use super::counts::{Counts, is_reference};
use super::frames::MAX_FRAMES;
use cb_types::{Header, PictureInfo, Reference, ScalingList4x4, ScalingList8x8};
use param_sets::{Pps, Sps};

/// The info of a picture that has these counts and references.
pub fn info_of(
    sps: &Sps,
    pps: &Pps,
    header: &Header,
    counts: Counts,
    references: [Reference; MAX_FRAMES],
) -> PictureInfo
    requires sps { IsAcceptedSps sps.now }
    requires pps { IsAcceptedPps pps.now }
    requires frame_num { header.now.frame_num < 2 ^ 16 }
    ensures { result ≡ info_of sps.now pps.now header.now counts references }
{
    PictureInfo {
        slice_count: 0,
        field_order_cnt: [counts.top, counts.bottom],
        is_reference: is_reference(header),
        frame_num: header.frame_num as u16,
        field_pic_flag: false,
        bottom_field_flag: false,
        num_ref_frames: sps.max_num_ref_frames as u8,
        mb_adaptive_frame_field_flag: false,
        constrained_intra_pred_flag: pps.constrained_intra_pred_flag,
        weighted_pred_flag: pps.weighted_pred_flag,
        weighted_bipred_idc: pps.weighted_bipred_idc as u8,
        frame_mbs_only_flag: sps.frame_mbs_only_flag,
        transform_8x8_mode_flag: false,
        chroma_qp_index_offset: pps.chroma_qp_index_offset as i8,
        second_chroma_qp_index_offset: pps.chroma_qp_index_offset as i8,
        pic_init_qp_minus26: pps.pic_init_qp_minus26 as i8,
        num_ref_idx_l0_active_minus1: pps.num_ref_idx_l0_default_active_minus1 as u8,
        num_ref_idx_l1_active_minus1: pps.num_ref_idx_l1_default_active_minus1 as u8,
        log2_max_frame_num_minus4: sps.log2_max_frame_num_minus4 as u8,
        pic_order_cnt_type: sps.pic_order_cnt_type as u8,
        log2_max_pic_order_cnt_lsb_minus4: sps.log2_max_pic_order_cnt_lsb_minus4 as u8,
        delta_pic_order_always_zero_flag: sps.delta_pic_order_always_zero_flag,
        direct_8x8_inference_flag: sps.direct_8x8_inference_flag,
        entropy_coding_mode_flag: pps.entropy_coding_mode_flag,
        pic_order_present_flag: pps.bottom_field_pic_order_in_frame_present_flag,
        deblocking_filter_control_present_flag: pps.deblocking_filter_control_present_flag,
        redundant_pic_cnt_present_flag: pps.redundant_pic_cnt_present_flag,
        scaling_lists_4x4: [ScalingList4x4([16; 16]); 6],
        scaling_lists_8x8: [ScalingList8x8([16; 64]); 2],
        references,
    }
}
