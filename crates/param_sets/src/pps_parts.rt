//! The parts of a picture parameter set, as they are read one behind the other.

ghost use Rattle.std.specs.Prelude.{◌≡◌};
ghost use Rattle.param_sets.specs.Parts.{pps_of};

use super::pps::Pps;

/// The elements through the numbers of active references.
#[derive(Clone, Copy)]
pub struct References {
    pub pic_parameter_set_id: u32,
    pub seq_parameter_set_id: u32,
    pub entropy_coding_mode_flag: bool,
    pub bottom_field_pic_order_in_frame_present_flag: bool,
    pub num_slice_groups_minus1: u32,
    pub num_ref_idx_l0_default_active_minus1: u32,
    pub num_ref_idx_l1_default_active_minus1: u32,
}

/// The elements from the weights on.
#[derive(Clone, Copy)]
pub struct Residuals {
    pub weighted_pred_flag: bool,
    pub weighted_bipred_idc: u32,
    pub pic_init_qp_minus26: i32,
    pub pic_init_qs_minus26: i32,
    pub chroma_qp_index_offset: i32,
    pub deblocking_filter_control_present_flag: bool,
    pub constrained_intra_pred_flag: bool,
    pub redundant_pic_cnt_present_flag: bool,
}

/// The set that has these parts.
pub fn assembled(references: &References, residuals: &Residuals) -> Pps
    ensures { result ≡ pps_of references.now residuals.now }
{
    Pps {
        pic_parameter_set_id: references.pic_parameter_set_id,
        seq_parameter_set_id: references.seq_parameter_set_id,
        entropy_coding_mode_flag: references.entropy_coding_mode_flag,
        bottom_field_pic_order_in_frame_present_flag: references.bottom_field_pic_order_in_frame_present_flag,
        num_slice_groups_minus1: references.num_slice_groups_minus1,
        num_ref_idx_l0_default_active_minus1: references.num_ref_idx_l0_default_active_minus1,
        num_ref_idx_l1_default_active_minus1: references.num_ref_idx_l1_default_active_minus1,
        weighted_pred_flag: residuals.weighted_pred_flag,
        weighted_bipred_idc: residuals.weighted_bipred_idc,
        pic_init_qp_minus26: residuals.pic_init_qp_minus26,
        pic_init_qs_minus26: residuals.pic_init_qs_minus26,
        chroma_qp_index_offset: residuals.chroma_qp_index_offset,
        deblocking_filter_control_present_flag: residuals.deblocking_filter_control_present_flag,
        constrained_intra_pred_flag: residuals.constrained_intra_pred_flag,
        redundant_pic_cnt_present_flag: residuals.redundant_pic_cnt_present_flag,
    }
}
