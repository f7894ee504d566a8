// What a picture is decoded with beside its slices: VdpPictureInfoH264 of vdpau.h.

/// The surface of a reference entry that isn't used (VDP_INVALID_HANDLE of vdpau.h).
pub const UNUSED_SURFACE: u32 = 0xFFFF_FFFF;

/// The surface of an absent frame: one that is marked as used for reference because its frame_num was left
/// out (H.264, 8.2.5.2), and that has no samples. No handle has this value.
pub const ABSENT_SURFACE: u32 = 0xFFFF_FFFE;

/// A frame that is marked as used for reference (VdpReferenceFrameH264 of vdpau.h).
///
/// `frame_idx` is the frame_num of a short-term frame and LongTermFrameIdx of a long-term one;
/// `field_order_cnt` has the picture order counts of the top and the bottom field.
#[derive(Clone, Copy, Debug, PartialEq, Eq)]
pub struct Reference {
    pub surface: u32,
    pub is_long_term: bool,
    pub top_is_reference: bool,
    pub bottom_is_reference: bool,
    pub field_order_cnt: [i32; 2],
    pub frame_idx: u16,
}

impl Reference {
    ghost use Rattle.std.specs.Prelude.{◌↔◌, IsTrue};
    ghost use Rattle.cb_types.specs.References.{is_absent, is_unused};

    /// An entry that isn't used.
    pub const UNUSED: Reference = Reference {
        surface: UNUSED_SURFACE,
        is_long_term: false,
        top_is_reference: false,
        bottom_is_reference: false,
        field_order_cnt: [0; 2],
        frame_idx: 0,
    };

    /// Whether the entry names nothing.
    pub fn is_unused(&self) -> bool
        ensures { IsTrue result ↔ IsTrue (is_unused self.now) }
    {
        self.surface == UNUSED_SURFACE
    }

    /// Whether the entry is an absent frame, which has no samples.
    pub fn is_absent(&self) -> bool
        ensures { IsTrue result ↔ IsTrue (is_absent self.now) }
    {
        self.surface == ABSENT_SURFACE
    }
}

/// The weights of a 4x4 scaling list, in the order of the zig-zag scan.
#[derive(Clone, Copy, Debug, PartialEq, Eq)]
pub struct ScalingList4x4(pub [u8; 16]);

/// The weights of an 8x8 scaling list, in the order of the zig-zag scan.
#[derive(Clone, Copy, Debug, PartialEq, Eq)]
pub struct ScalingList8x8(pub [u8; 64]);

/// The fields of a picture's parameter sets and first slice header that its decoding needs, and its
/// references (VdpPictureInfoH264 of vdpau.h; the names are those of H.264, 7.3.2 and 7.3.3).
///
/// `field_order_cnt` has the counts of the top and the bottom field. `num_ref_frames` is
/// max_num_ref_frames, `pic_order_present_flag` is bottom_field_pic_order_in_frame_present_flag.
#[derive(Clone, Copy, Debug, PartialEq, Eq)]
pub struct PictureInfo {
    pub slice_count: u32,
    pub field_order_cnt: [i32; 2],
    pub is_reference: bool,
    pub frame_num: u16,
    pub field_pic_flag: bool,
    pub bottom_field_flag: bool,
    pub num_ref_frames: u8,
    pub mb_adaptive_frame_field_flag: bool,
    pub constrained_intra_pred_flag: bool,
    pub weighted_pred_flag: bool,
    pub weighted_bipred_idc: u8,
    pub frame_mbs_only_flag: bool,
    pub transform_8x8_mode_flag: bool,
    pub chroma_qp_index_offset: i8,
    pub second_chroma_qp_index_offset: i8,
    pub pic_init_qp_minus26: i8,
    pub num_ref_idx_l0_active_minus1: u8,
    pub num_ref_idx_l1_active_minus1: u8,
    pub log2_max_frame_num_minus4: u8,
    pub pic_order_cnt_type: u8,
    pub log2_max_pic_order_cnt_lsb_minus4: u8,
    pub delta_pic_order_always_zero_flag: bool,
    pub direct_8x8_inference_flag: bool,
    pub entropy_coding_mode_flag: bool,
    pub pic_order_present_flag: bool,
    pub deblocking_filter_control_present_flag: bool,
    pub redundant_pic_cnt_present_flag: bool,
    pub scaling_lists_4x4: [ScalingList4x4; 6],
    pub scaling_lists_8x8: [ScalingList8x8; 2],
    pub references: [Reference; 16],
}

impl PictureInfo {
    ghost use Rattle.std.specs.Prelude.{◌≡◌, ◌^◌, ◌≤◌};
    ghost use Rattle.cb_types.specs.AcceptedInfo.{max_frame_num};

    /// MaxFrameNum (H.264, 7.4.2.1.1), up to 65,536.
    pub fn max_frame_num(&self) -> u32
        requires { self.now.log2_max_frame_num_minus4 ≤ 12 }
        ensures value { result ≡ max_frame_num self.now }
        ensures greatest { result ≤ 2 ^ 16 }
    {
        1 << (u32::from(self.log2_max_frame_num_minus4) + 4)
    }
}
