// The syntax elements of a slice header.

use super::picture_info::PictureInfo;

/// The first byte of a NAL unit (H.264, 7.3.1): nal_ref_idc and nal_unit_type.
#[derive(Clone, Copy, Debug, PartialEq, Eq)]
pub struct UnitHead {
    pub ref_idc: u8,
    pub unit_type: u8,
}

/// One command of the modification of a reference list (H.264, 7.3.3.1).
///
/// `Subtract` and `Add` have abs_diff_pic_num_minus1 (modification_of_pic_nums_idc 0 and 1), `Long` has
/// long_term_pic_num (2).
#[derive(Clone, Copy, Debug, PartialEq, Eq)]
pub enum ListEdit {
    Subtract(u32),
    Add(u32),
    Long(u32),
}

/// One memory management control operation (H.264, 7.3.3.3), in the order of their numbers from 1 to 6.
///
/// `UnmarkShort` has difference_of_pic_nums_minus1, `UnmarkLong` long_term_pic_num, `MakeLong`
/// difference_of_pic_nums_minus1 and long_term_frame_idx, `MaxLong` max_long_term_frame_idx_plus1,
/// `CurrentLong` long_term_frame_idx.
#[derive(Clone, Copy, Debug, PartialEq, Eq)]
pub enum Mmco {
    UnmarkShort(u32),
    UnmarkLong(u32),
    MakeLong(u32, u32),
    MaxLong(u32),
    Reset,
    CurrentLong(u32),
}

/// What a slice header says of the marking of reference pictures (H.264, 7.3.3.3).
///
/// `Absent` where nal_ref_idc is 0. `Idr` has no_output_of_prior_pics_flag and
/// long_term_reference_flag. `Operations` are as many of the list as its count, without the one that
/// ends them.
#[derive(Clone, Copy, Debug, PartialEq, Eq)]
pub enum Marking {
    Absent,
    Idr { no_output: bool, long_term: bool },
    Sliding,
    Operations { count: u32, list: [Mmco; 64] },
}

/// The weight and the offset of one array of samples of a reference (H.264, 7.3.3.2).
#[derive(Clone, Copy, Debug, PartialEq, Eq)]
pub struct Weight {
    pub weight: i32,
    pub offset: i32,
}

/// The weights that are spelled for one entry of the reference list (H.264, 7.3.3.2); those of chroma
/// are Cb's and Cr's.
#[derive(Clone, Copy, Debug, PartialEq, Eq)]
pub struct EntryWeights {
    pub luma: Option<Weight>,
    pub chroma: Option<[Weight; 2]>,
}

/// The prediction weight table (H.264, 7.3.3.2): luma_log2_weight_denom, chroma_log2_weight_denom and
/// the weights of each entry. Where it isn't spelled, and beyond the active entries, it is 0 and None.
#[derive(Clone, Copy, Debug, PartialEq, Eq)]
pub struct Weights {
    pub luma_denom: u32,
    pub chroma_denom: u32,
    pub entries: [EntryWeights; 16],
}

impl Weights {
    /// The table that isn't spelled.
    pub const NONE: Weights = Weights {
        luma_denom: 0,
        chroma_denom: 0,
        entries: [EntryWeights {
            luma: None,
            chroma: None,
        }; 16],
    };
}

/// A slice header (H.264, 7.3.3), behind the unit's first byte `head`.
///
/// `slice_type` is kept as it is spelled: 0 and 5 are P, 2 and 7 are I. `active_override` is
/// num_ref_idx_l0_active_minus1 where num_ref_idx_active_override_flag is 1. `edited` is
/// ref_pic_list_modification_flag_l0, and `edits` has `edit_count` commands. `alpha_half` and
/// `beta_half` are slice_alpha_c0_offset_div2 and slice_beta_offset_div2. Elements that aren't spelled
/// are 0, None or false.
#[derive(Clone, Copy, Debug, PartialEq, Eq)]
pub struct Header {
    pub head: UnitHead,
    pub first_mb: u32,
    pub slice_type: u32,
    pub pps: u32,
    pub frame_num: u32,
    pub idr_pic_id: u32,
    pub poc_lsb: u32,
    pub delta_bottom: i32,
    pub delta_poc: [i32; 2],
    pub active_override: Option<u32>,
    pub edited: bool,
    pub edit_count: u32,
    pub edits: [ListEdit; 16],
    pub weights: Weights,
    pub marking: Marking,
    pub qp_delta: i32,
    pub deblock_idc: u32,
    pub alpha_half: i32,
    pub beta_half: i32,
}

impl Header {
    ghost use Rattle.std.specs.Prelude.{◌≡◌, ◌^◌, ◌<◌};
    ghost use Rattle.cb_types.specs.Slices.{active_entries, is_idr, is_p};

    /// Whether the slice is a P slice.
    pub fn is_p(&self) -> bool
        ensures { result ≡ is_p self.now }
    {
        self.slice_type % 5 == 0
    }

    /// Whether the slice is of an IDR picture.
    pub fn is_idr(&self) -> bool
        ensures { result ≡ is_idr self.now }
    {
        self.head.unit_type == 5
    }

    /// How many entries the slice's reference list has: num_ref_idx_l0_active_minus1 + 1 (H.264, 7.4.3),
    /// by the picture info where the header doesn't spell it.
    pub fn active_entries(&self, info: &PictureInfo) -> u32
        requires { active_entries info.now self.now < 2 ^ 32 }
        ensures { result ≡ active_entries info.now self.now }
    {
        let listed = match self.active_override {
            Some(minus1) => minus1,
            None => u32::from(info.num_ref_idx_l0_active_minus1),
        };
        listed + 1
    }
}
