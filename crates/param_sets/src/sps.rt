ghost use Rattle.std.specs.Prelude.{◌≡◌};

use super::constraints::Constraints;
use cb_types::SizeMbs;

/// The greatest number of offset_for_ref_frame (H.264, 7.4.2.1.1).
pub const MAX_CYCLE: usize = 255;

/// A sequence parameter set: its syntax elements under their names and in their order (H.264, 7.3.2.1.1).
///
/// An element that isn't spelled is 0 or false, and so are the entries of `offset_for_ref_frame` from
/// `num_ref_frames_in_pic_order_cnt_cycle` on. Cropping is in units of two luma samples.
#[derive(Clone, Copy, Debug, PartialEq, Eq)]
pub struct Sps {
    pub profile_idc: u32,
    pub constraints: Constraints,
    pub level_idc: u32,
    pub seq_parameter_set_id: u32,
    pub log2_max_frame_num_minus4: u32,
    pub pic_order_cnt_type: u32,
    pub log2_max_pic_order_cnt_lsb_minus4: u32,
    pub delta_pic_order_always_zero_flag: bool,
    pub offset_for_non_ref_pic: i32,
    pub offset_for_top_to_bottom_field: i32,
    pub num_ref_frames_in_pic_order_cnt_cycle: u32,
    pub offset_for_ref_frame: [i32; MAX_CYCLE],
    pub max_num_ref_frames: u32,
    pub gaps_in_frame_num_value_allowed_flag: bool,
    pub pic_width_in_mbs_minus1: u32,
    pub pic_height_in_map_units_minus1: u32,
    pub frame_mbs_only_flag: bool,
    pub direct_8x8_inference_flag: bool,
    pub frame_cropping_flag: bool,
    pub frame_crop_left_offset: u32,
    pub frame_crop_right_offset: u32,
    pub frame_crop_top_offset: u32,
    pub frame_crop_bottom_offset: u32,
}

impl Sps {
    ghost use Rattle.std.specs.Prelude.{◌<◌, ◌^◌};
    ghost use Rattle.param_sets.specs.Sps.{size_of};

    /// The size of the pictures (PicWidthInMbs and FrameHeightInMbs of frames alone).
    pub fn size(&self) -> SizeMbs
        requires width { (size_of self.now).width < 2 ^ 32 }
        requires height { (size_of self.now).height < 2 ^ 32 }
        ensures { result ≡ size_of self.now }
    {
        SizeMbs {
            width: self.pic_width_in_mbs_minus1 + 1,
            height: self.pic_height_in_map_units_minus1 + 1,
        }
    }
}
