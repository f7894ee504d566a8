// Picture order counts (H.264, 8.2.1).
ghost use Rattle.std.specs.Prelude.{◌≡◌, ◌≤◌, ◌<◌, ◌^◌, ◌+◌, ℤ, pos, negsuc, ◌≤ℤ◌, ◌+ℤ◌};
ghost use Rattle.param_sets.specs.Accepted.{IsAcceptedSps};
ghost use Rattle.marking.specs.Begun.{max_frame_num};
ghost use Rattle.marking.specs.Operations.{counts_in_range, from_zero, is_in_range, least_count};
ghost use Rattle.marking.specs.OrderCounts.{counts_by_cycle, counts_by_lsb, counts_by_number, frame_num_offset, is_reference, max_lsb, order_counts, top_by_lsb, wrapped_msb};

use super::cycles::{summed, top_by_cycle};
use cb_types::Header;
use param_sets::Sps;

/// The picture order counts of the top and the bottom field of a frame.
#[derive(Clone, Copy, Debug)]
pub struct Counts {
    pub top: i32,
    pub bottom: i32,
}

/// What picture order counts need of the pictures before: the msb and the lsb of the last reference picture
/// (prevPicOrderCntMsb, prevPicOrderCntLsb), and the frame_num and the offset of the picture before
/// (prevFrameNum, prevFrameNumOffset).
#[derive(Clone, Copy, Debug)]
pub struct Orders {
    pub msb: i64,
    pub lsb: i64,
    pub before_frame_num: u32,
    pub offset: u64,
}

/// Both counts, None where one isn't a number of 32 bits.
pub fn counted(top: i128, bottom: i128) -> Option<Counts>
    ensures { (t b : ℤ) → top ≡ t → bottom ≡ b → result ≡ counts_in_range (record { top = t; bottom = b }) }
{
    exactly(top, bottom)
}

fn exactly(top: i128, bottom: i128) -> Option<Counts>
    ensures { result ≡ counts_in_range (record { top = top; bottom = bottom }) }
{
    if is_in_range(top) && is_in_range(bottom) {
        Some(Counts {
            top: top as i32,
            bottom: bottom as i32,
        })
    } else {
        None
    }
}

fn is_in_range(count: i128) -> bool
    ensures { result ≡ is_in_range count }
{
    count >= -2147483648 && count <= 2147483647
}

/// The counts of a frame, less by the smaller of them.
pub fn from_zero(counts: Counts) -> Option<Counts>
    ensures { result ≡ counts_in_range (from_zero counts) }
{
    let least = least_count(counts) as i128;
    counted(counts.top as i128 - least, counts.bottom as i128 - least)
}

/// The count of a frame, which is the smaller one of its fields.
pub fn least_count(counts: Counts) -> i32
    ensures { result ≡ least_count counts }
{
    if counts.bottom < counts.top {
        counts.bottom
    } else {
        counts.top
    }
}

/// The counts of a picture, None where one isn't a number of 32 bits.
pub fn order_counts(orders: &Orders, sps: &Sps, header: &Header) -> Option<Counts>
    requires accepted { IsAcceptedSps sps.now }
    requires msb_least { negsuc (2 ^ 33) ≤ℤ orders.now.msb }
    requires msb_most { orders.now.msb ≤ℤ pos (2 ^ 32) }
    requires lsb_least { pos 0 ≤ℤ orders.now.lsb }
    requires lsb_most { orders.now.lsb ≤ℤ pos (2 ^ 32) }
    requires offset { orders.now.offset ≤ 2 ^ 48 }
    requires frame_num { header.now.frame_num < 2 ^ 16 }
    ensures { result ≡ counts_in_range (order_counts sps.now (max_frame_num sps.now) orders.now header.now) }
{
    if sps.pic_order_cnt_type == 0 {
        return counts_by_lsb(orders, sps, header);
    }
    let max_frame_num = 1 << (sps.log2_max_frame_num_minus4 + 4);
    let number = frame_num_offset(orders, max_frame_num, header) + header.frame_num as u64;
    if sps.pic_order_cnt_type == 1 {
        counts_by_cycle(sps, header, number)
    } else {
        counts_by_number(header, number)
    }
}

fn counts_by_lsb(orders: &Orders, sps: &Sps, header: &Header) -> Option<Counts>
    requires accepted { IsAcceptedSps sps.now }
    requires msb_least { negsuc (2 ^ 33) ≤ℤ orders.now.msb }
    requires msb_most { orders.now.msb ≤ℤ pos (2 ^ 32) }
    requires lsb_least { pos 0 ≤ℤ orders.now.lsb }
    requires lsb_most { orders.now.lsb ≤ℤ pos (2 ^ 32) }
    ensures { result ≡ counts_in_range (counts_by_lsb sps.now orders.now header.now) }
{
    let top = top_by_lsb(orders, sps, header);
    let bottom = header.delta_bottom;
    counted(top as i128, top as i128 + bottom as i128)
}

fn counts_by_cycle(sps: &Sps, header: &Header, number: u64) -> Option<Counts>
    requires accepted { IsAcceptedSps sps.now }
    requires number { number ≤ 2 ^ 49 }
    ensures { result ≡ counts_in_range (counts_by_cycle sps.now header.now number) }
{
    let top = top_by_cycle(sps, header, number);
    let delta = header.delta_poc[1];
    let bottom = summed(top, sps.offset_for_top_to_bottom_field, delta);
    counted(top, bottom)
}

fn counts_by_number(header: &Header, number: u64) -> Option<Counts>
    requires { number ≤ 2 ^ 49 }
    ensures { result ≡ counts_in_range (counts_by_number header.now number) }
{
    let doubled = 2 * number as i128;
    if is_reference(header) {
        counted(doubled, doubled)
    } else {
        counted(doubled - 1, doubled - 1)
    }
}

/// FrameNumOffset.
pub fn frame_num_offset(orders: &Orders, max_frame_num: u32, header: &Header) -> u64
    requires offset { orders.now.offset ≤ 2 ^ 48 }
    ensures value { result ≡ frame_num_offset max_frame_num orders.now header.now }
    ensures most { result ≤ orders.now.offset + max_frame_num }
{
    if header.is_idr() {
        0
    } else if orders.before_frame_num > header.frame_num {
        orders.offset + u64::from(max_frame_num)
    } else {
        orders.offset
    }
}

fn top_by_lsb(orders: &Orders, sps: &Sps, header: &Header) -> i64
    requires accepted { IsAcceptedSps sps.now }
    requires msb_least { negsuc (2 ^ 33) ≤ℤ orders.now.msb }
    requires msb_most { orders.now.msb ≤ℤ pos (2 ^ 32) }
    requires lsb_least { pos 0 ≤ℤ orders.now.lsb }
    requires lsb_most { orders.now.lsb ≤ℤ pos (2 ^ 32) }
    ensures value { result ≡ top_by_lsb sps.now orders.now header.now }
    ensures least { negsuc (2 ^ 34) ≤ℤ result }
    ensures most { result ≤ℤ pos (2 ^ 34) }
{
    let range = max_lsb(sps);
    if header.is_idr() {
        wrapped_top(range, 0, 0, header.poc_lsb)
    } else {
        wrapped_top(range, orders.msb, orders.lsb, header.poc_lsb)
    }
}

fn max_lsb(sps: &Sps) -> u32
    requires { IsAcceptedSps sps.now }
    ensures value { result ≡ max_lsb sps.now }
    ensures most { result ≤ 2 ^ 16 }
{
    1 << (sps.log2_max_pic_order_cnt_lsb_minus4 + 4)
}

/// The top count, from the msb and the lsb of the last reference picture.
fn wrapped_top(range: u32, msb: i64, last: i64, lsb: u32) -> i64
    requires range { range ≤ 2 ^ 16 }
    requires msb_least { negsuc (2 ^ 33) ≤ℤ msb }
    requires msb_most { msb ≤ℤ pos (2 ^ 32) }
    requires last_least { pos 0 ≤ℤ last }
    requires last_most { last ≤ℤ pos (2 ^ 32) }
    requires lsb { lsb < 2 ^ 32 }
    ensures value { (m l : ℤ) → msb ≡ m → last ≡ l → result ≡ wrapped_msb range m l (pos lsb) +ℤ pos lsb }
    ensures least { negsuc (2 ^ 34) ≤ℤ result }
    ensures most { result ≤ℤ pos (2 ^ 34) }
{
    let half = (range / 2) as i64;
    if last - lsb as i64 >= half {
        msb + range as i64 + lsb as i64
    } else if lsb as i64 - last > half {
        msb - range as i64 + lsb as i64
    } else {
        msb + lsb as i64
    }
}

/// Whether the picture is a reference picture.
pub fn is_reference(header: &Header) -> bool
    ensures { result ≡ is_reference header.now }
{
    header.head.ref_idc != 0
}
