// The picture that is decoded: it repeats its reference.
use cb_types::{PictureInfo, Reference, ScalingList4x4, ScalingList8x8};

/// The slice unit of a P picture of one macroblock, which is skipped (H.264, 7.3.3 and 7.3.4).
pub const SLICE: [u8; 7] = [0, 0, 1, 0x41, 0x9A, 0x22, 0x94];

/// What it is decoded with. It is the second picture of the sets `67 42 C0 0A DA 71` and `68 CE 3C 80`.
pub fn info_on(surface: u32) -> PictureInfo {
    let mut info = PICTURE;
    info.references[0] = Reference {
        surface,
        is_long_term: false,
        top_is_reference: true,
        bottom_is_reference: true,
        field_order_cnt: [0; 2],
        frame_idx: 0,
    };
    info
}

const PICTURE: PictureInfo = PictureInfo {
    slice_count: 1,
    field_order_cnt: [0; 2],
    is_reference: true,
    frame_num: 1,
    field_pic_flag: false,
    bottom_field_flag: false,
    num_ref_frames: 1,
    mb_adaptive_frame_field_flag: false,
    constrained_intra_pred_flag: false,
    weighted_pred_flag: false,
    weighted_bipred_idc: 0,
    frame_mbs_only_flag: true,
    transform_8x8_mode_flag: false,
    chroma_qp_index_offset: 0,
    second_chroma_qp_index_offset: 0,
    pic_init_qp_minus26: 0,
    num_ref_idx_l0_active_minus1: 0,
    num_ref_idx_l1_active_minus1: 0,
    log2_max_frame_num_minus4: 0,
    pic_order_cnt_type: 2,
    log2_max_pic_order_cnt_lsb_minus4: 0,
    delta_pic_order_always_zero_flag: false,
    direct_8x8_inference_flag: false,
    entropy_coding_mode_flag: false,
    pic_order_present_flag: false,
    deblocking_filter_control_present_flag: true,
    redundant_pic_cnt_present_flag: false,
    scaling_lists_4x4: [ScalingList4x4([16; 16]); 6],
    scaling_lists_8x8: [ScalingList8x8([16; 64]); 2],
    references: [Reference::UNUSED; 16],
};
