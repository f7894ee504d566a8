//! Which elements of a slice header stand.

ghost use Rattle.std.specs.Prelude.{◌≡◌, ◌^◌, ◌<◌, ◌≤◌};
ghost use Rattle.cb_types.specs.AcceptedInfo.{max_frame_num};
ghost use Rattle.slice_header.specs.Conditions as conditions;
ghost use Rattle.slice_header.specs.Conditions.{HasRanges};
ghost use Rattle.slice_header.specs.Spelling.{greatest_qp_delta, is_slice_type, least_qp_delta};

use cb_types::PictureInfo;

/// Whether delta_pic_order_cnt_bottom stands.
pub fn has_bottom(info: &PictureInfo) -> bool
    ensures { result ≡ conditions.has_bottom info.now }
{
    info.pic_order_cnt_type == 0 && info.pic_order_present_flag
}

/// Whether `delta_pic_order_cnt[0]` stands.
pub fn has_delta(info: &PictureInfo) -> bool
    ensures { result ≡ conditions.has_delta info.now }
{
    info.pic_order_cnt_type == 1 && !info.delta_pic_order_always_zero_flag
}

/// Whether `delta_pic_order_cnt[1]` stands.
pub fn has_second_delta(info: &PictureInfo) -> bool
    ensures { result ≡ conditions.has_second_delta info.now }
{
    has_delta(info) && info.pic_order_present_flag
}

/// Whether a slice of this type has a table of weights.
pub fn has_weights(info: &PictureInfo, slice_type: u32) -> bool
    ensures { result ≡ conditions.has_weights info.now slice_type }
{
    slice_type % 5 == 0 && info.weighted_pred_flag
}

/// Whether the filter's offsets stand behind this disable_deblocking_filter_idc.
pub fn has_offsets(info: &PictureInfo, idc: u32) -> bool
    ensures { result ≡ conditions.has_offsets info.now idc }
{
    info.deblocking_filter_control_present_flag && idc != 1
}

/// Whether a slice may have this slice_type.
pub fn is_slice_type(slice_type: u32) -> bool
    ensures { result ≡ is_slice_type slice_type }
{
    slice_type == 0 || slice_type == 2 || slice_type == 5 || slice_type == 7
}

/// How many entries the reference list has.
pub fn active_of(info: &PictureInfo, active_override: Option<u32>) -> u32
    requires { conditions.active_of info.now active_override < 2 ^ 32 }
    ensures { result ≡ conditions.active_of info.now active_override }
{
    let minus1 = match active_override {
        Some(minus1) => minus1,
        None => u32::from(info.num_ref_idx_l0_active_minus1),
    };
    minus1 + 1
}

/// The least slice_qp_delta.
pub fn least_qp_delta(info: &PictureInfo) -> i32
    requires { HasRanges info.now }
    ensures { result ≡ least_qp_delta info.now }
{
    -26 - i32::from(info.pic_init_qp_minus26)
}

/// The greatest slice_qp_delta.
pub fn greatest_qp_delta(info: &PictureInfo) -> i32
    requires { HasRanges info.now }
    ensures { result ≡ greatest_qp_delta info.now }
{
    25 - i32::from(info.pic_init_qp_minus26)
}

/// MaxFrameNum.
pub fn max_frame_num(info: &PictureInfo) -> u32
    requires { HasRanges info.now }
    ensures value { result ≡ max_frame_num info.now }
    ensures some { 1 ≤ result }
{
    1 << (u32::from(info.log2_max_frame_num_minus4) + 4)
}
