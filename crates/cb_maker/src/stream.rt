// The bytes of a made stream.
ghost use Rattle.std.specs.Prelude.{◌≡◌, ◌++◌, IfOk, List, OnOk, Vec, map, ℕ};
ghost use Rattle.std.specs.List.{AllZip};
ghost use Rattle.std.specs.declared.alloc.Global as owner;
ghost use Rattle.cb_maker.specs.Slices.{slices_of};
ghost use Rattle.cb_maker.specs.Stream.{IsMade, IsSliceUnit};

use super::draws::Draws;
use super::slices::slice_unit;
use cb_types::{PictureInfo, Reference, ScalingList4x4, ScalingList8x8, SizeMbs};
use nal_units::join;
use std::alloc::{AllocError, Global};

/// How many pictures a made stream has.
pub const PICTURES: u32 = 60;

/// How many slices each picture has.
pub const PICTURE_SLICES: u32 = 3;

/// How many macroblocks each slice has.
pub const SLICE_MBS: u32 = 132;

/// The size of the pictures.
pub const SIZE: SizeMbs = SizeMbs {
    width: 22,
    height: 18,
};

/// What the stream's two sets say of the spelling of its slices; the other fields are 0 or empty.
pub const INFO: PictureInfo = PictureInfo {
    slice_count: 0,
    field_order_cnt: [0; 2],
    is_reference: true,
    frame_num: 0,
    field_pic_flag: false,
    bottom_field_flag: false,
    num_ref_frames: 3,
    mb_adaptive_frame_field_flag: false,
    constrained_intra_pred_flag: false,
    weighted_pred_flag: false,
    weighted_bipred_idc: 0,
    frame_mbs_only_flag: true,
    transform_8x8_mode_flag: false,
    chroma_qp_index_offset: 0,
    second_chroma_qp_index_offset: 0,
    pic_init_qp_minus26: 0,
    num_ref_idx_l0_active_minus1: 0,
    num_ref_idx_l1_active_minus1: 0,
    log2_max_frame_num_minus4: 0,
    pic_order_cnt_type: 2,
    log2_max_pic_order_cnt_lsb_minus4: 0,
    delta_pic_order_always_zero_flag: false,
    direct_8x8_inference_flag: true,
    entropy_coding_mode_flag: false,
    pic_order_present_flag: false,
    deblocking_filter_control_present_flag: true,
    redundant_pic_cnt_present_flag: false,
    scaling_lists_4x4: [ScalingList4x4([16; 16]); 6],
    scaling_lists_8x8: [ScalingList8x8([16; 64]); 2],
    references: [Reference::UNUSED; 16],
};

const INFORMATION: [u8; 20] = [
    0x06, 0x05, 0x10, 0x41, 0x41, 0x41, 0x41, 0x41, 0x41, 0x41, 0x41, 0x41, 0x41, 0x41, 0x41, 0x41,
    0x41, 0x41, 0x41, 0x80,
];

const SEQUENCE_SET: [u8; 13] = [
    0x67, 0x42, 0xC0, 0x1E, 0xD9, 0x01, 0x60, 0x96, 0x80, 0x78, 0xC1, 0x92, 0x40,
];

const PICTURE_SET: [u8; 4] = [0x68, 0xCE, 0x3C, 0x80];

/// The bytes of the stream that is made from this number: 60 pictures of 352x288 samples, in three slices each, with
/// macroblocks of all kinds.
pub fn make(alloc: Global, number: u32) -> Result<Vec<u8>, AllocError>
    ensures { IfOk result (λ text. IsMade number text.items) }
{
    let mut units = Vec::new(alloc);
    let information = Vec::from_slice(alloc, &INFORMATION)?;
    units.push(information)?;
    let sequence_set = Vec::from_slice(alloc, &SEQUENCE_SET)?;
    units.push(sequence_set)?;
    let picture_set = Vec::from_slice(alloc, &PICTURE_SET)?;
    units.push(picture_set)?;
    put_slices(alloc, &mut units, number)?;
    join(alloc, &units)
}

// Puts the units of the stream's slices behind these.
fn put_slices(alloc: Global, units: &mut Vec<Vec<u8>>, number: u32) -> Result<(), AllocError>
    ensures { OnOk result ((added : List (Vec ℕ owner.Global)) × (units.new.items ≡ units.old.items ++ added)
        × AllZip IsSliceUnit (slices_of number) (map (λ unit. unit.items) added)) }
{
    let mut draws = Draws::new(number);
    let mut mbs = Vec::new(alloc);
    for slice in 0..PICTURES * PICTURE_SLICES {
        let picture = slice / PICTURE_SLICES;
        let place = slice % PICTURE_SLICES;
        let unit = slice_unit(alloc, &mut draws, &mut mbs, picture, place)?;
        units.push(unit)?;
    }
    Ok(())
}
