//! Sequence parameter sets from their bytes.

ghost use Rattle.std.specs.Prelude.{◌≡◌, ◌≢◌, ◌≤◌, ◌==◌, ◌↔◌, Err, IfOk, Ok};
ghost use Rattle.param_sets.specs.Accepted.{IsAcceptedSps};
ghost use Rattle.param_sets.specs.Sps.{IsBadSps, IsSpsOf, IsTooLarge, LeavesBaseline, cropping, cycle, no_cropping, no_cycle, offsets, seq_parameter_set_data};
ghost use Rattle.param_sets.specs.Parts.{frames, start};
ghost use Rattle.element_tables.specs.Syntax.{Gives, any, present, ue, up_to};

use super::constraints::Constraints;
use super::fault::SetFault;
use super::sps::{MAX_CYCLE, Sps};
use super::sps_parts::{Cropping, Cycle, Frames, Start, assembled};
use bit_io::BitReader;
use element_tables::{
    Stop, read_byte, read_flag, read_flag_only, read_se, read_u, read_u_only, read_ue,
    read_ue_up_to,
};

/// The sequence parameter set that the payload of a NAL unit of type 7 spells. A VUI isn't read, and so
/// nothing behind it is.
pub fn read_sps(rbsp: &[u8]) -> Result<Sps, SetFault>
    ensures found { IfOk result (λ s. IsSpsOf rbsp.now s) }
    ensures only { (s : Sps) → IsSpsOf rbsp.now s → result ≡ Ok s }
    ensures bad { (result ≡ Err SetFault.BadSps) ↔ IsBadSps rbsp.now }
    ensures not_baseline { (result ≡ Err SetFault.NotBaseline) ↔ LeavesBaseline rbsp.now }
    ensures too_large { (result ≡ Err SetFault.TooLarge) ↔ IsTooLarge rbsp.now }
    ensures no_other { result ≢ Err SetFault.BadPps }
    ensures accepted { IfOk result IsAcceptedSps }
{
    let mut reader = BitReader::new(rbsp);
    let (sps, has_vui) = match read_sequence(&mut reader) {
        Ok(found) => found,
        Err(Stop::Malformed) => return Err(SetFault::BadSps),
        Err(Stop::OtherProfile) => return Err(SetFault::NotBaseline),
    };
    if !has_vui && !reader.ends_here() {
        return Err(SetFault::BadSps);
    }
    if !sps.size().is_within_limits() {
        return Err(SetFault::TooLarge);
    }
    Ok(sps)
}

// The set, and vui_parameters_present_flag.
fn read_sequence(reader: &mut BitReader) -> Result<(Sps, bool), Stop>
    ensures { Gives seq_parameter_set_data reader.old result reader.new }
{
    let start = read_start(reader)?;
    let lsb_length = read_lsb_length(reader, start.pic_order_cnt_type == 0)?;
    let cycle = read_cycle(reader, start.pic_order_cnt_type == 1)?;
    let frames = read_frames(reader)?;
    let crop = read_cropping(reader, frames.frame_cropping_flag)?;
    let vui_parameters_present_flag = read_flag(reader)?;
    let sps = assembled(&start, lsb_length, &cycle, &frames, &crop);
    Ok((sps, vui_parameters_present_flag))
}

fn read_start(reader: &mut BitReader) -> Result<Start, Stop>
    ensures { Gives start reader.old result reader.new }
{
    let profile_idc = read_u_only(reader, 8, 66)?;
    let constraints = read_byte(reader)?;
    let level_idc = read_u(reader, 8)?;
    let seq_parameter_set_id = read_ue_up_to(reader, 31)?;
    let log2_max_frame_num_minus4 = read_ue_up_to(reader, 12)?;
    let pic_order_cnt_type = read_ue_up_to(reader, 2)?;
    Ok(Start {
        profile_idc,
        constraints: Constraints(constraints),
        level_idc,
        seq_parameter_set_id,
        log2_max_frame_num_minus4,
        pic_order_cnt_type,
    })
}

// log2_max_pic_order_cnt_lsb_minus4 where it is present.
fn read_lsb_length(reader: &mut BitReader, is_present: bool) -> Result<u32, Stop>
    ensures { Gives (present is_present (ue (up_to 12)) 0) reader.old result reader.new }
{
    if !is_present {
        return Ok(0);
    }
    read_ue_up_to(reader, 12)
}

fn read_cycle(reader: &mut BitReader, is_present: bool) -> Result<Cycle, Stop>
    ensures { Gives (present is_present cycle no_cycle) reader.old result reader.new }
{
    if !is_present {
        return Ok(Cycle {
            delta_pic_order_always_zero_flag: false,
            offset_for_non_ref_pic: 0,
            offset_for_top_to_bottom_field: 0,
            num_ref_frames_in_pic_order_cnt_cycle: 0,
            offset_for_ref_frame: [0; MAX_CYCLE],
        });
    }
    read_present_cycle(reader)
}

fn read_present_cycle(reader: &mut BitReader) -> Result<Cycle, Stop>
    ensures { Gives cycle reader.old result reader.new }
{
    let delta_pic_order_always_zero_flag = read_flag(reader)?;
    let offset_for_non_ref_pic = read_se(reader)?;
    let offset_for_top_to_bottom_field = read_se(reader)?;
    let num_ref_frames_in_pic_order_cnt_cycle = read_ue_up_to(reader, 255)?;
    let offset_for_ref_frame = read_offsets(reader, num_ref_frames_in_pic_order_cnt_cycle)?;
    Ok(Cycle {
        delta_pic_order_always_zero_flag,
        offset_for_non_ref_pic,
        offset_for_top_to_bottom_field,
        num_ref_frames_in_pic_order_cnt_cycle,
        offset_for_ref_frame,
    })
}

// That many of offset_for_ref_frame, and zeros.
fn read_offsets(reader: &mut BitReader, count: u32) -> Result<[i32; MAX_CYCLE], Stop>
    requires { count ≤ 255 }
    ensures { Gives (offsets count) reader.old result reader.new }
{
    let mut offsets = [0; MAX_CYCLE];
    for i in 0..count as usize {
        offsets[i] = read_se(reader)?;
    }
    Ok(offsets)
}

fn read_frames(reader: &mut BitReader) -> Result<Frames, Stop>
    ensures { Gives frames reader.old result reader.new }
{
    let max_num_ref_frames = read_ue_up_to(reader, 16)?;
    let gaps_in_frame_num_value_allowed_flag = read_flag(reader)?;
    let pic_width_in_mbs_minus1 = read_ue(reader)?;
    let pic_height_in_map_units_minus1 = read_ue(reader)?;
    let frame_mbs_only_flag = read_flag_only(reader, true)?;
    let direct_8x8_inference_flag = read_flag(reader)?;
    let frame_cropping_flag = read_flag(reader)?;
    Ok(Frames {
        max_num_ref_frames,
        gaps_in_frame_num_value_allowed_flag,
        pic_width_in_mbs_minus1,
        pic_height_in_map_units_minus1,
        frame_mbs_only_flag,
        direct_8x8_inference_flag,
        frame_cropping_flag,
    })
}

fn read_cropping(reader: &mut BitReader, is_present: bool) -> Result<Cropping, Stop>
    ensures { Gives (present is_present cropping no_cropping) reader.old result reader.new }
{
    if !is_present {
        return Ok(Cropping {
            left: 0,
            right: 0,
            top: 0,
            bottom: 0,
        });
    }
    read_present_cropping(reader)
}

fn read_present_cropping(reader: &mut BitReader) -> Result<Cropping, Stop>
    ensures { Gives cropping reader.old result reader.new }
{
    let left = read_ue(reader)?;
    let right = read_ue(reader)?;
    let top = read_ue(reader)?;
    let bottom = read_ue(reader)?;
    Ok(Cropping {
        left,
        right,
        top,
        bottom,
    })
}
