//! Sequence parameter sets as bytes.

ghost use Rattle.std.specs.Prelude.{◌==◌, IfOk, OnOk, false};
ghost use Rattle.param_sets.specs.Accepted.{AreOffsets, IsAcceptedSps};
ghost use Rattle.param_sets.specs.Sps.{IsSpsOf, IsWrittenSps, cropping, cycle, no_cropping, no_cycle, offsets, seq_parameter_set_data};
ghost use Rattle.param_sets.specs.Parts.{crop_of, cycle_of, frames, frames_of, start, start_of};
ghost use Rattle.element_tables.specs.Syntax.{Appends, present, ue, up_to};

use super::sps::Sps;
use bit_io::BitWriter;
use element_tables::put_flag;
use std::alloc::{AllocError, Global};

/// The payload of a NAL unit of type 7 that spells the set, without a VUI.
pub fn write_sps(alloc: Global, sps: &Sps) -> Result<Vec<u8>, AllocError>
    requires { IsAcceptedSps sps.now }
    ensures written { IfOk result (λ v. IsWrittenSps v.items sps.now) }
    ensures reads_back { IfOk result (λ v. IsSpsOf v.items sps.now) }
{
    let mut out = BitWriter::new(alloc);
    put_sequence(&mut out, sps)?;
    out.finish()?;
    Vec::from_slice(alloc, out.bytes())
}

fn put_sequence(out: &mut BitWriter, sps: &Sps) -> Result<(), AllocError>
    requires { IsAcceptedSps sps.now }
    ensures { OnOk result (Appends seq_parameter_set_data (sps.now, false) out.old out.new) }
{
    put_start(out, sps)?;
    put_lsb_length(out, sps)?;
    put_cycle(out, sps)?;
    put_frames(out, sps)?;
    put_cropping(out, sps)?;
    put_flag(out, false)
}

fn put_start(out: &mut BitWriter, sps: &Sps) -> Result<(), AllocError>
    requires { IsAcceptedSps sps.now }
    ensures { OnOk result (Appends start (start_of sps.now) out.old out.new) }
{
    out.put_u(sps.profile_idc, 8)?;
    out.put_u(u32::from(sps.constraints.0), 8)?;
    out.put_u(sps.level_idc, 8)?;
    out.put_ue(sps.seq_parameter_set_id)?;
    out.put_ue(sps.log2_max_frame_num_minus4)?;
    out.put_ue(sps.pic_order_cnt_type)
}

// log2_max_pic_order_cnt_lsb_minus4 where it is present.
fn put_lsb_length(out: &mut BitWriter, sps: &Sps) -> Result<(), AllocError>
    requires { IsAcceptedSps sps.now }
    ensures { OnOk result (Appends (present (sps.now.pic_order_cnt_type == 0) (ue (up_to 12)) 0) sps.now.log2_max_pic_order_cnt_lsb_minus4 out.old out.new) }
{
    if sps.pic_order_cnt_type != 0 {
        return Ok(());
    }
    out.put_ue(sps.log2_max_pic_order_cnt_lsb_minus4)
}

// The elements of picture order counts of type 1 where they are present.
fn put_cycle(out: &mut BitWriter, sps: &Sps) -> Result<(), AllocError>
    requires { IsAcceptedSps sps.now }
    ensures { OnOk result (Appends (present (sps.now.pic_order_cnt_type == 1) cycle no_cycle) (cycle_of sps.now) out.old out.new) }
{
    if sps.pic_order_cnt_type != 1 {
        return Ok(());
    }
    put_present_cycle(out, sps)
}

fn put_present_cycle(out: &mut BitWriter, sps: &Sps) -> Result<(), AllocError>
    requires { IsAcceptedSps sps.now }
    ensures { OnOk result (Appends cycle (cycle_of sps.now) out.old out.new) }
{
    put_flag(out, sps.delta_pic_order_always_zero_flag)?;
    out.put_se(sps.offset_for_non_ref_pic)?;
    out.put_se(sps.offset_for_top_to_bottom_field)?;
    out.put_ue(sps.num_ref_frames_in_pic_order_cnt_cycle)?;
    put_offsets(
        out,
        sps.num_ref_frames_in_pic_order_cnt_cycle,
        &sps.offset_for_ref_frame,
    )
}

fn put_offsets(out: &mut BitWriter, count: u32, entries: &[i32]) -> Result<(), AllocError>
    requires { AreOffsets count entries.now }
    ensures { OnOk result (Appends (offsets count) entries.now out.old out.new) }
{
    for offset in &entries[..count as usize] {
        out.put_se(*offset)?;
    }
    Ok(())
}

fn put_frames(out: &mut BitWriter, sps: &Sps) -> Result<(), AllocError>
    requires { IsAcceptedSps sps.now }
    ensures { OnOk result (Appends frames (frames_of sps.now) out.old out.new) }
{
    out.put_ue(sps.max_num_ref_frames)?;
    put_flag(out, sps.gaps_in_frame_num_value_allowed_flag)?;
    out.put_ue(sps.pic_width_in_mbs_minus1)?;
    out.put_ue(sps.pic_height_in_map_units_minus1)?;
    put_flag(out, sps.frame_mbs_only_flag)?;
    put_flag(out, sps.direct_8x8_inference_flag)?;
    put_flag(out, sps.frame_cropping_flag)
}

// The offsets of the cropping rectangle where they are present.
fn put_cropping(out: &mut BitWriter, sps: &Sps) -> Result<(), AllocError>
    requires { IsAcceptedSps sps.now }
    ensures { OnOk result (Appends (present sps.now.frame_cropping_flag cropping no_cropping) (crop_of sps.now) out.old out.new) }
{
    if !sps.frame_cropping_flag {
        return Ok(());
    }
    put_present_cropping(out, sps)
}

fn put_present_cropping(out: &mut BitWriter, sps: &Sps) -> Result<(), AllocError>
    requires { IsAcceptedSps sps.now }
    ensures { OnOk result (Appends cropping (crop_of sps.now) out.old out.new) }
{
    out.put_ue(sps.frame_crop_left_offset)?;
    out.put_ue(sps.frame_crop_right_offset)?;
    out.put_ue(sps.frame_crop_top_offset)?;
    out.put_ue(sps.frame_crop_bottom_offset)
}
