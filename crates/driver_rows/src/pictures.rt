// Pictures for renders: their information, their slice units, and what they come to.
ghost use Rattle.std.specs.Prelude.{◌≤◌};

use cb_types::{PictureInfo, Reference, ScalingList4x4, ScalingList8x8};
use decoder_render::Outcome;
use std::alloc::{AllocError, Global};
use submission::{Submission, SubmissionFault};
use vd_plane::{Picture, Plane};

// An IDR picture of the sets `67 42 C0 0A DA 71` and `68 CE 3C 80`: MaxFrameNum is 16, the picture order
// count has type 2, and slices say how they are filtered.
const IDR: PictureInfo = PictureInfo {
    slice_count: 1,
    field_order_cnt: [0; 2],
    is_reference: true,
    frame_num: 0,
    field_pic_flag: false,
    bottom_field_flag: false,
    num_ref_frames: 1,
    mb_adaptive_frame_field_flag: false,
    constrained_intra_pred_flag: false,
    weighted_pred_flag: false,
    weighted_bipred_idc: 0,
    frame_mbs_only_flag: true,
    transform_8x8_mode_flag: false,
    chroma_qp_index_offset: 0,
    second_chroma_qp_index_offset: 0,
    pic_init_qp_minus26: 0,
    num_ref_idx_l0_active_minus1: 0,
    num_ref_idx_l1_active_minus1: 0,
    log2_max_frame_num_minus4: 0,
    pic_order_cnt_type: 2,
    log2_max_pic_order_cnt_lsb_minus4: 0,
    delta_pic_order_always_zero_flag: false,
    direct_8x8_inference_flag: false,
    entropy_coding_mode_flag: false,
    pic_order_present_flag: false,
    deblocking_filter_control_present_flag: true,
    redundant_pic_cnt_present_flag: false,
    scaling_lists_4x4: [ScalingList4x4([16; 16]); 6],
    scaling_lists_8x8: [ScalingList8x8([16; 64]); 2],
    references: [Reference::UNUSED; 16],
};

// A whole frame that is marked as used for reference.
const SHORT_TERM: Reference = Reference {
    surface: 0,
    is_long_term: false,
    top_is_reference: true,
    bottom_is_reference: true,
    field_order_cnt: [0; 2],
    frame_idx: 0,
};

/// What a render is handed: the information, but for the name of a reference, and the units for the core; and for
/// the slow driver how many units these are, and what they come to.
#[derive(Drop)]
pub struct Asked {
    pub info: PictureInfo,
    pub has_reference: bool,
    pub submission: Submission,
    pub units: u32,
    pub outcome: Outcome,
    pub picture: Picture,
}

impl Asked {
    /// The information, where the reference has this name.
    pub fn info(&self, surface: u32) -> PictureInfo {
        let mut info = self.info;
        if self.has_reference {
            info.references[0] = Reference {
                surface,
                ..SHORT_TERM
            };
        }
        info
    }
}

/// The picture with this number, which is of one slice of a macroblock whose samples are all this value, from 1 on, for
/// a surface in which so many macroblocks are missing then: 1 has CABAC, in 2 the samples are missing in the slice unit,
/// 4 has the unit twice, and each greater number has a reference.
pub fn by_number(alloc: Global, number: u32, value: u8, missing: u32) -> Result<Asked, AllocError> {
    let info = PictureInfo {
        entropy_coding_mode_flag: number == 1,
        ..IDR
    };
    let outcome = match (number, missing) {
        (2, _) => Outcome::Bitstream { slice: 0 },
        (_, 0) => Outcome::Ok,
        _ => Outcome::Incomplete {
            macroblocks: missing,
        },
    };
    Ok(Asked {
        info,
        has_reference: number > 4,
        submission: units_of(alloc, number, value)?,
        units: if number == 4 { 2 } else { 1 },
        outcome,
        picture: picture_of(alloc, 1, 1, [value, value])?,
    })
}

/// The information on a picture of so many slices that differs from an IDR picture's by its kind: 0 not at all; 1 it
/// is the next picture; 2 so it is, and its prediction is weighted.
pub fn worked_info(kind: u32, slices: u32) -> PictureInfo {
    PictureInfo {
        slice_count: slices,
        frame_num: if kind == 0 { 0 } else { 1 },
        weighted_pred_flag: kind == 2,
        ..IDR
    }
}

/// A picture of so many macroblocks across and down, whose luma samples are all this value, and whose chroma samples are
/// that one.
pub fn picture_of(
    alloc: Global,
    columns: u32,
    rows: u32,
    samples: [u8; 2],
) -> Result<Picture, AllocError>
    requires some_column { 1 ≤ columns }
    requires columns { columns ≤ 256 }
    requires some_row { 1 ≤ rows }
    requires rows { rows ≤ 256 }
{
    let [luma, chroma] = samples;
    Ok(Picture {
        y: Plane::new(alloc, 16 * columns, 16 * rows, luma)?,
        cb: Plane::new(alloc, 8 * columns, 8 * rows, chroma)?,
        cr: Plane::new(alloc, 8 * columns, 8 * rows, chroma)?,
    })
}

// The start code prefix and the header of a slice unit of such a picture, up to the samples of its first macroblock:
// an IDR unit that is a reference (nal_unit_type 5), an I slice of all of the picture without a filter, and an I_PCM
// macroblock (H.264, 7.3.1, 7.3.3 and 7.3.5).
const HEADER: [u8; 8] = [0, 0, 1, 0x65, 0x88, 0x84, 0xA0, 0xD0];

// The samples of a macroblock: 256 of luma and 64 of each chroma.
const SAMPLES: usize = 384;

// The last byte of a slice unit: rbsp_trailing_bits at a byte's beginning.
const TRAILER: u8 = 0x80;

// The slice units of the picture with this number (H.264, Annex B). No byte of the samples has to be kept from looking
// like a prefix, since none is 0.
fn units_of(alloc: Global, number: u32, value: u8) -> Result<Submission, AllocError> {
    let count = if number == 2 { 0 } else { SAMPLES };
    let mut submission = Submission::new(alloc);
    push_unit(alloc, &mut submission, count, value)?;
    if number == 4 {
        push_unit(alloc, &mut submission, count, value)?;
    }
    Ok(submission)
}

// A slice unit with so many samples.
fn push_unit(
    alloc: Global,
    submission: &mut Submission,
    count: usize,
    value: u8,
) -> Result<(), AllocError> {
    let samples = vec![in alloc; value; count]?;
    push(submission, &HEADER)?;
    push(submission, &samples)?;
    push(submission, &[TRAILER])
}

// Bytes that aren't too many.
fn push(submission: &mut Submission, bytes: &[u8]) -> Result<(), AllocError> {
    match submission.push(bytes) {
        Err(SubmissionFault::OutOfMemory) => Err(AllocError),
        _ => Ok(()),
    }
}
