//! The first elements of a slice header, and the last ones, from their bits.

ghost use Rattle.std.specs.Prelude.{◌+◌, pos, negsuc};
ghost use Rattle.element_tables.specs.Syntax.{Gives, any, between, present, se, ue, up_to, u};
ghost use Rattle.slice_header.specs.Conditions.{HasRanges, has_lsb};
ghost use Rattle.slice_header.specs.Spelling as spelling;
ghost use Rattle.slice_header.specs.Spelling.{filter, numbers, orders, slice_types};

use super::conditions::{
    greatest_qp_delta, has_bottom, has_delta, has_offsets, has_second_delta, is_slice_type,
    least_qp_delta,
};
use super::parts::{Filter, Numbers, Orders};
use bit_io::BitReader;
use cb_types::{PictureInfo, UnitHead};
use element_tables::{Stop, read_se, read_se_between, read_u, read_ue, read_ue_up_to};

/// Reads the elements through idr_pic_id.
pub fn read_numbers(
    reader: &mut BitReader,
    info: &PictureInfo,
    head: UnitHead,
) -> Result<Numbers, Stop>
    requires { HasRanges info.now }
    ensures { Gives (numbers head info.now) reader.old result reader.new }
{
    let first_mb = read_ue(reader)?;
    let slice_type = read_slice_type(reader)?;
    let pps = read_ue_up_to(reader, 255)?;
    let frame_num = read_u(reader, u32::from(info.log2_max_frame_num_minus4) + 4)?;
    let idr_pic_id = read_idr_pic_id(reader, head.unit_type == 5)?;
    Ok(Numbers {
        first_mb,
        slice_type,
        pps,
        frame_num,
        idr_pic_id,
    })
}

fn read_slice_type(reader: &mut BitReader) -> Result<u32, Stop>
    ensures { Gives (ue slice_types) reader.old result reader.new }
{
    let slice_type = read_ue(reader)?;
    if is_slice_type(slice_type) {
        Ok(slice_type)
    } else {
        Err(Stop::Malformed)
    }
}

fn read_idr_pic_id(reader: &mut BitReader, is_present: bool) -> Result<u32, Stop>
    ensures { Gives (present is_present (ue (up_to 65535)) 0) reader.old result reader.new }
{
    if !is_present {
        return Ok(0);
    }
    read_ue_up_to(reader, 65535)
}

/// Reads the elements of the picture order count.
pub fn read_orders(reader: &mut BitReader, info: &PictureInfo) -> Result<Orders, Stop>
    requires { HasRanges info.now }
    ensures { Gives (orders info.now) reader.old result reader.new }
{
    let poc_lsb = read_lsb(reader, info)?;
    let delta_bottom = read_delta(reader, has_bottom(info))?;
    let first = read_delta(reader, has_delta(info))?;
    let second = read_delta(reader, has_second_delta(info))?;
    Ok(Orders {
        poc_lsb,
        delta_bottom,
        delta_poc: [first, second],
    })
}

fn read_lsb(reader: &mut BitReader, info: &PictureInfo) -> Result<u32, Stop>
    requires { HasRanges info.now }
    ensures { Gives (present (has_lsb info.now) (u (info.now.log2_max_pic_order_cnt_lsb_minus4 + 4) any) 0) reader.old result reader.new }
{
    if info.pic_order_cnt_type != 0 {
        return Ok(0);
    }
    read_u(
        reader,
        u32::from(info.log2_max_pic_order_cnt_lsb_minus4) + 4,
    )
}

fn read_delta(reader: &mut BitReader, is_present: bool) -> Result<i32, Stop>
    ensures { Gives (present is_present (se any) (pos 0)) reader.old result reader.new }
{
    if !is_present {
        return Ok(0);
    }
    read_se(reader)
}

/// Reads the quantizer and the deblocking filter's elements.
pub fn read_filter(reader: &mut BitReader, info: &PictureInfo) -> Result<Filter, Stop>
    requires { HasRanges info.now }
    ensures { Gives (filter info.now) reader.old result reader.new }
{
    let qp_delta = read_qp_delta(reader, info)?;
    let idc = read_filter_idc(reader, info.deblocking_filter_control_present_flag)?;
    let alpha_half = read_offset(reader, has_offsets(info, idc))?;
    let beta_half = read_offset(reader, has_offsets(info, idc))?;
    Ok(Filter {
        qp_delta,
        idc,
        alpha_half,
        beta_half,
    })
}

fn read_qp_delta(reader: &mut BitReader, info: &PictureInfo) -> Result<i32, Stop>
    requires { HasRanges info.now }
    ensures { Gives (se (between (spelling.least_qp_delta info.now) (spelling.greatest_qp_delta info.now))) reader.old result reader.new }
{
    let least = least_qp_delta(info);
    let greatest = greatest_qp_delta(info);
    read_se_between(reader, least, greatest)
}

// disable_deblocking_filter_idc where it is present.
fn read_filter_idc(reader: &mut BitReader, is_present: bool) -> Result<u32, Stop>
    ensures { Gives (present is_present (ue (up_to 2)) 0) reader.old result reader.new }
{
    if !is_present {
        return Ok(0);
    }
    read_ue_up_to(reader, 2)
}

// An offset of the filter where it is present.
fn read_offset(reader: &mut BitReader, is_present: bool) -> Result<i32, Stop>
    ensures { Gives (present is_present (se (between (negsuc 5) (pos 6))) (pos 0)) reader.old result reader.new }
{
    if !is_present {
        return Ok(0);
    }
    read_se_between(reader, -6, 6)
}
