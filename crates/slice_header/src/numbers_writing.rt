//! The first elements of a slice header, and the last ones, as bits.

ghost use Rattle.std.specs.Prelude.{◌≡◌, ◌+◌, ◌≤ℤ◌, IsFalse, OnErr, OnOk, pos, negsuc};
ghost use Rattle.bit_io.specs.Codewords.{IsSe};
ghost use Rattle.cb_types.specs.Slices.{is_idr};
ghost use Rattle.element_tables.specs.Syntax.{Appends, any, between, present, se, ue, up_to, u};
ghost use Rattle.slice_header.specs.Conditions.{HasRanges, has_lsb};
ghost use Rattle.slice_header.specs.Headers.{IsHeader};
ghost use Rattle.slice_header.specs.Lists.{Extends};
ghost use Rattle.slice_header.specs.Parts.{filter_of, numbers_of, orders_of};
ghost use Rattle.slice_header.specs.Spelling.{filter, numbers, orders};

use super::conditions::{has_bottom, has_delta, has_offsets, has_second_delta};
use bit_io::BitWriter;
use cb_types::{Header, PictureInfo};
use std::alloc::AllocError;

/// Writes the elements through idr_pic_id.
pub fn put_numbers(
    out: &mut BitWriter,
    info: &PictureInfo,
    header: &Header,
) -> Result<(), AllocError>
    requires ranges { HasRanges info.now }
    requires header { IsHeader info.now header.now }
    ensures ok { OnOk result (Appends (numbers header.now.head info.now) (numbers_of header.now) out.old out.new) }
    ensures err { OnErr result (Extends out.old out.new) }
{
    out.put_ue(header.first_mb)?;
    out.put_ue(header.slice_type)?;
    out.put_ue(header.pps)?;
    out.put_u(
        header.frame_num,
        u32::from(info.log2_max_frame_num_minus4) + 4,
    )?;
    put_idr_pic_id(out, info, header)
}

fn put_idr_pic_id(
    out: &mut BitWriter,
    info: &PictureInfo,
    header: &Header,
) -> Result<(), AllocError>
    requires { IsHeader info.now header.now }
    ensures ok { OnOk result (Appends (present (is_idr header.now) (ue (up_to 65535)) 0) header.now.idr_pic_id out.old out.new) }
    ensures err { OnErr result (Extends out.old out.new) }
{
    if header.head.unit_type != 5 {
        return Ok(());
    }
    out.put_ue(header.idr_pic_id)
}

/// Writes the elements of the picture order count.
pub fn put_orders(
    out: &mut BitWriter,
    info: &PictureInfo,
    header: &Header,
) -> Result<(), AllocError>
    requires ranges { HasRanges info.now }
    requires header { IsHeader info.now header.now }
    ensures ok { OnOk result (Appends (orders info.now) (orders_of header.now) out.old out.new) }
    ensures err { OnErr result (Extends out.old out.new) }
{
    put_lsb(out, info, header)?;
    put_delta(out, header.delta_bottom, has_bottom(info))?;
    put_delta(out, header.delta_poc[0], has_delta(info))?;
    put_delta(out, header.delta_poc[1], has_second_delta(info))
}

fn put_lsb(out: &mut BitWriter, info: &PictureInfo, header: &Header) -> Result<(), AllocError>
    requires ranges { HasRanges info.now }
    requires header { IsHeader info.now header.now }
    ensures ok { OnOk result (Appends (present (has_lsb info.now) (u (info.now.log2_max_pic_order_cnt_lsb_minus4 + 4) any) 0) header.now.poc_lsb out.old out.new) }
    ensures err { OnErr result (Extends out.old out.new) }
{
    if info.pic_order_cnt_type != 0 {
        return Ok(());
    }
    out.put_u(
        header.poc_lsb,
        u32::from(info.log2_max_pic_order_cnt_lsb_minus4) + 4,
    )
}

fn put_delta(out: &mut BitWriter, value: i32, is_present: bool) -> Result<(), AllocError>
    requires value { IsSe value }
    requires absent { IsFalse is_present → value ≡ pos 0 }
    ensures ok { OnOk result (Appends (present is_present (se any) (pos 0)) value out.old out.new) }
    ensures err { OnErr result (Extends out.old out.new) }
{
    if !is_present {
        return Ok(());
    }
    out.put_se(value)
}

/// Writes the quantizer and the deblocking filter's elements.
pub fn put_filter(
    out: &mut BitWriter,
    info: &PictureInfo,
    header: &Header,
) -> Result<(), AllocError>
    requires ranges { HasRanges info.now }
    requires header { IsHeader info.now header.now }
    ensures ok { OnOk result (Appends (filter info.now) (filter_of header.now) out.old out.new) }
    ensures err { OnErr result (Extends out.old out.new) }
{
    let is_present = has_offsets(info, header.deblock_idc);
    out.put_se(header.qp_delta)?;
    put_filter_idc(out, info, header)?;
    put_offset(out, header.alpha_half, is_present)?;
    put_offset(out, header.beta_half, is_present)
}

// disable_deblocking_filter_idc where it is present.
fn put_filter_idc(
    out: &mut BitWriter,
    info: &PictureInfo,
    header: &Header,
) -> Result<(), AllocError>
    requires { IsHeader info.now header.now }
    ensures ok { OnOk result (Appends (present info.now.deblocking_filter_control_present_flag (ue (up_to 2)) 0) header.now.deblock_idc out.old out.new) }
    ensures err { OnErr result (Extends out.old out.new) }
{
    if !info.deblocking_filter_control_present_flag {
        return Ok(());
    }
    out.put_ue(header.deblock_idc)
}

// An offset of the filter where it is present.
fn put_offset(out: &mut BitWriter, value: i32, is_present: bool) -> Result<(), AllocError>
    requires least { negsuc 5 ≤ℤ value }
    requires most { value ≤ℤ pos 6 }
    requires absent { IsFalse is_present → value ≡ pos 0 }
    ensures ok { OnOk result (Appends (present is_present (se (between (negsuc 5) (pos 6))) (pos 0)) value out.old out.new) }
    ensures err { OnErr result (Extends out.old out.new) }
{
    if !is_present {
        return Ok(());
    }
    out.put_se(value)
}
