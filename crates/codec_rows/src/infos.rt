// The information on a picture, its fields by name.
ghost use Rattle.std.specs.Prelude.{IsTrue};
ghost use Rattle.cb_types.specs.AcceptedInfo.{IsAcceptedBySome};

use crate::line::{number, split};
use cb_types::{
    ABSENT_SURFACE, PictureInfo, Reference, ScalingList4x4, ScalingList8x8, first_refused_field,
};

// An IDR picture of the sets `67 42 C0 0A DA 71` and `68 CE 3C 80`: MaxFrameNum is 16, the picture order
// count has type 2, and slices say how they are filtered.
pub const IDR: PictureInfo = PictureInfo {
    slice_count: 1,
    field_order_cnt: [0; 2],
    is_reference: true,
    frame_num: 0,
    field_pic_flag: false,
    bottom_field_flag: false,
    num_ref_frames: 1,
    mb_adaptive_frame_field_flag: false,
    constrained_intra_pred_flag: false,
    weighted_pred_flag: false,
    weighted_bipred_idc: 0,
    frame_mbs_only_flag: true,
    transform_8x8_mode_flag: false,
    chroma_qp_index_offset: 0,
    second_chroma_qp_index_offset: 0,
    pic_init_qp_minus26: 0,
    num_ref_idx_l0_active_minus1: 0,
    num_ref_idx_l1_active_minus1: 0,
    log2_max_frame_num_minus4: 0,
    pic_order_cnt_type: 2,
    log2_max_pic_order_cnt_lsb_minus4: 0,
    delta_pic_order_always_zero_flag: false,
    direct_8x8_inference_flag: false,
    entropy_coding_mode_flag: false,
    pic_order_present_flag: false,
    deblocking_filter_control_present_flag: true,
    redundant_pic_cnt_present_flag: false,
    scaling_lists_4x4: [ScalingList4x4([16; 16]); 6],
    scaling_lists_8x8: [ScalingList8x8([16; 64]); 2],
    references: [Reference::UNUSED; 16],
};

const ABSENT: Reference = Reference {
    surface: ABSENT_SURFACE,
    ..Reference::UNUSED
};

/// The information on that picture, but for these fields.
pub fn info_of(fields: &str) -> PictureInfo {
    let mut info = IDR;
    for field in fields.split(',') {
        set(&mut info, field);
    }
    info
}

fn set(info: &mut PictureInfo, field: &str) {
    let (name, value) = split(field, '=');
    let n = number(value);
    match name {
        "frame_num" => info.frame_num = n.min(65_535) as u16,
        "num_ref_frames" => info.num_ref_frames = n.min(255) as u8,
        "num_ref_idx_l0_active_minus1" => info.num_ref_idx_l0_active_minus1 = n.min(255) as u8,
        "is_reference" => info.is_reference = n == 1,
        "weighted_pred_flag" => info.weighted_pred_flag = n == 1,
        "deblocking_filter_control_present_flag" => {
            info.deblocking_filter_control_present_flag = n == 1
        }
        "absent_references" => info.references = [ABSENT; 16],
        "references" => info.references = references_of(value),
        _ => {}
    }
}

// Up to three short-term references, each as its surface and its frame_num.
fn references_of(list: &str) -> [Reference; 16] {
    let (first, others) = split(list, '/');
    let (second, third) = split(others, '/');
    let mut references = [Reference::UNUSED; 16];
    references[0] = reference_of(first);
    references[1] = reference_of(second);
    references[2] = reference_of(third);
    references
}

fn reference_of(entry: &str) -> Reference {
    let (surface, frame_num) = split(entry, ':');
    if entry == "" {
        return Reference::UNUSED;
    }
    Reference {
        surface: number(surface),
        is_long_term: false,
        top_is_reference: true,
        bottom_is_reference: true,
        field_order_cnt: [0; 2],
        frame_idx: number(frame_num).min(65_535) as u16,
    }
}

/// Whether some decoder takes the information.
pub fn is_accepted(info: &PictureInfo) -> bool
    ensures { IsTrue result → IsAcceptedBySome info.now }
{
    match first_refused_field(1, 16, info) {
        None => true,
        Some(_) => false,
    }
}
