//! The parts of a sequence parameter set, as they are read one behind the other.

ghost use Rattle.std.specs.Prelude.{◌≡◌};
ghost use Rattle.param_sets.specs.Parts.{sps_of};

use super::constraints::Constraints;
use super::sps::{MAX_CYCLE, Sps};

/// The elements through pic_order_cnt_type.
#[derive(Clone, Copy)]
pub struct Start {
    pub profile_idc: u32,
    pub constraints: Constraints,
    pub level_idc: u32,
    pub seq_parameter_set_id: u32,
    pub log2_max_frame_num_minus4: u32,
    pub pic_order_cnt_type: u32,
}

/// The elements of picture order counts of type 1.
#[derive(Clone, Copy)]
pub struct Cycle {
    pub delta_pic_order_always_zero_flag: bool,
    pub offset_for_non_ref_pic: i32,
    pub offset_for_top_to_bottom_field: i32,
    pub num_ref_frames_in_pic_order_cnt_cycle: u32,
    pub offset_for_ref_frame: [i32; MAX_CYCLE],
}

/// The elements from max_num_ref_frames through frame_cropping_flag.
#[derive(Clone, Copy)]
pub struct Frames {
    pub max_num_ref_frames: u32,
    pub gaps_in_frame_num_value_allowed_flag: bool,
    pub pic_width_in_mbs_minus1: u32,
    pub pic_height_in_map_units_minus1: u32,
    pub frame_mbs_only_flag: bool,
    pub direct_8x8_inference_flag: bool,
    pub frame_cropping_flag: bool,
}

/// The offsets of the cropping rectangle.
#[derive(Clone, Copy)]
pub struct Cropping {
    pub left: u32,
    pub right: u32,
    pub top: u32,
    pub bottom: u32,
}

/// The set that has these parts.
pub fn assembled(
    start: &Start,
    lsb_length: u32,
    cycle: &Cycle,
    frames: &Frames,
    crop: &Cropping,
) -> Sps
    ensures { result ≡ sps_of start.now lsb_length cycle.now frames.now crop.now }
{
    Sps {
        profile_idc: start.profile_idc,
        constraints: start.constraints,
        level_idc: start.level_idc,
        seq_parameter_set_id: start.seq_parameter_set_id,
        log2_max_frame_num_minus4: start.log2_max_frame_num_minus4,
        pic_order_cnt_type: start.pic_order_cnt_type,
        log2_max_pic_order_cnt_lsb_minus4: lsb_length,
        delta_pic_order_always_zero_flag: cycle.delta_pic_order_always_zero_flag,
        offset_for_non_ref_pic: cycle.offset_for_non_ref_pic,
        offset_for_top_to_bottom_field: cycle.offset_for_top_to_bottom_field,
        num_ref_frames_in_pic_order_cnt_cycle: cycle.num_ref_frames_in_pic_order_cnt_cycle,
        offset_for_ref_frame: cycle.offset_for_ref_frame,
        max_num_ref_frames: frames.max_num_ref_frames,
        gaps_in_frame_num_value_allowed_flag: frames.gaps_in_frame_num_value_allowed_flag,
        pic_width_in_mbs_minus1: frames.pic_width_in_mbs_minus1,
        pic_height_in_map_units_minus1: frames.pic_height_in_map_units_minus1,
        frame_mbs_only_flag: frames.frame_mbs_only_flag,
        direct_8x8_inference_flag: frames.direct_8x8_inference_flag,
        frame_cropping_flag: frames.frame_cropping_flag,
        frame_crop_left_offset: crop.left,
        frame_crop_right_offset: crop.right,
        frame_crop_top_offset: crop.top,
        frame_crop_bottom_offset: crop.bottom,
    }
}
