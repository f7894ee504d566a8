// What is kept for order counts and frame numbers behind a picture.
ghost use Rattle.std.specs.Prelude.{◌≡◌, ◌≤◌, ◌<◌, ◌^◌};
ghost use Rattle.marking.specs.Begun.{last_frame_num_after, lsb_after, msb_after, orders_after};

use super::counts::{Counts, Orders, frame_num_offset, is_reference, least_count};
use super::numbers::Numbers;
use cb_types::Header;

/// The numbers behind a picture with these counts, after operation 5 or not.
pub fn orders_after(
    max_frame_num: u32,
    orders: &Orders,
    header: &Header,
    is_reset: bool,
    counts: Counts,
) -> Orders
    requires { orders.now.offset ≤ 2 ^ 48 }
    ensures { result ≡ orders_after max_frame_num orders.now header.now is_reset counts }
{
    let (msb, lsb) = if is_reference(header) {
        (
            msb_after(header, is_reset, counts),
            lsb_after(header, is_reset, counts),
        )
    } else {
        (orders.msb, orders.lsb)
    };
    let (before_frame_num, offset) = if is_reset {
        (0, 0)
    } else {
        let offset = frame_num_offset(orders, max_frame_num, header);
        (header.frame_num, offset)
    };
    Orders {
        msb,
        lsb,
        before_frame_num,
        offset,
    }
}

fn msb_after(header: &Header, is_reset: bool, counts: Counts) -> i64
    ensures { result ≡ msb_after is_reset header.now counts }
{
    if is_reset {
        0
    } else {
        i64::from(counts.top) - i64::from(header.poc_lsb)
    }
}

fn lsb_after(header: &Header, is_reset: bool, counts: Counts) -> i64
    ensures { result ≡ lsb_after is_reset header.now counts }
{
    if is_reset {
        counts.top as i64 - least_count(counts) as i64
    } else {
        header.poc_lsb as i64
    }
}

/// The frame_num that counts as that of the last reference picture behind this one.
pub fn last_frame_num_after(numbers: Numbers, header: &Header, is_reset: bool) -> u32
    requires some { 0 < numbers.max_frame_num }
    requires range { numbers.max_frame_num ≤ 2 ^ 16 }
    requires frame_num { numbers.frame_num < numbers.max_frame_num }
    ensures value { result ≡ last_frame_num_after numbers header.now is_reset }
    ensures below { result < numbers.max_frame_num }
{
    if !is_reference(header) {
        return (numbers.frame_num + numbers.max_frame_num - 1) % numbers.max_frame_num;
    }
    if is_reset { 0 } else { numbers.frame_num }
}
