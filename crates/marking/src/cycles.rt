// Picture order counts of type 1, by a cycle of offsets (H.264, 8.2.1.2).
ghost use Rattle.std.specs.Prelude.{◌≡◌, ◌≤◌, ◌<◌, ◌^◌, ◌*◌, ◌+ℤ◌, ◌-ℤ◌, ◌*ℤ◌, ℕ, ℤ, pos, negsuc, ◌≤ℤ◌, length};
ghost use Rattle.param_sets.specs.Accepted.{IsAcceptedSps};
ghost use Rattle.marking.specs.OrderCounts.{abs_frame_num, expected_count, top_by_cycle, total};

use super::counts::is_reference;
use cb_types::Header;
use param_sets::Sps;

/// The count of the top field of the picture whose frame number, without wraps, is this.
pub fn top_by_cycle(sps: &Sps, header: &Header, number: u64) -> i128
    requires accepted { IsAcceptedSps sps.now }
    requires number { number ≤ 2 ^ 49 }
    ensures value { result ≡ top_by_cycle sps.now header.now number }
    ensures least { negsuc (2 ^ 92) ≤ℤ result }
    ensures most { result ≤ℤ pos (2 ^ 92) }
{
    let a = abs_frame_num(sps, header, number);
    let expected = expected_count(sps, a);
    let delta = header.delta_poc[0];
    if is_reference(header) {
        summed(expected, 0, delta)
    } else {
        summed(expected, sps.offset_for_non_ref_pic, delta)
    }
}

/// The sum of these.
pub fn summed(expected: i128, more: i32, delta: i32) -> i128
    requires least { negsuc (2 ^ 93) ≤ℤ expected }
    requires most { expected ≤ℤ pos (2 ^ 93) }
    ensures value { (e m d : ℤ) → expected ≡ e → more ≡ m → delta ≡ d → result ≡ (e +ℤ m) +ℤ d }
    ensures least { (expected -ℤ pos (2 ^ 33)) ≤ℤ result }
    ensures most { result ≤ℤ (expected +ℤ pos (2 ^ 33)) }
{
    expected + more as i128 + delta as i128
}

fn abs_frame_num(sps: &Sps, header: &Header, number: u64) -> u64
    ensures value { result ≡ abs_frame_num sps.now header.now number }
    ensures most { result ≤ number }
    ensures none { sps.now.num_ref_frames_in_pic_order_cnt_cycle ≡ 0 → result ≡ 0 }
{
    let a = if sps.num_ref_frames_in_pic_order_cnt_cycle == 0 {
        0
    } else {
        number
    };
    if is_reference(header) {
        a
    } else {
        a.saturating_sub(1)
    }
}

fn expected_count(sps: &Sps, a: u64) -> i128
    requires accepted { IsAcceptedSps sps.now }
    requires most { a ≤ 2 ^ 49 }
    requires none { sps.now.num_ref_frames_in_pic_order_cnt_cycle ≡ 0 → a ≡ 0 }
    ensures value { result ≡ expected_count sps.now.offset_for_ref_frame sps.now.num_ref_frames_in_pic_order_cnt_cycle a }
    ensures least { negsuc (2 ^ 91) ≤ℤ result }
    ensures greatest { result ≤ℤ pos (2 ^ 91) }
{
    if a == 0 {
        return 0;
    }
    let cycle = sps.num_ref_frames_in_pic_order_cnt_cycle as u64;
    let whole = total(&sps.offset_for_ref_frame[..cycle as usize]);
    let part = total(&sps.offset_for_ref_frame[..((a - 1) % cycle + 1) as usize]);
    scaled((a - 1) / cycle, whole, part)
}

/// So many whole cycles, and a part of one.
fn scaled(times: u64, whole: i64, part: i64) -> i128
    requires times { times ≤ 2 ^ 49 }
    requires whole_least { negsuc (2 ^ 40) ≤ℤ whole }
    requires whole_most { whole ≤ℤ pos (2 ^ 40) }
    requires part_least { negsuc (2 ^ 40) ≤ℤ part }
    requires part_most { part ≤ℤ pos (2 ^ 40) }
    ensures value { (w p : ℤ) → whole ≡ w → part ≡ p → result ≡ (pos times *ℤ w) +ℤ p }
    ensures least { negsuc (2 ^ 91) ≤ℤ result }
    ensures greatest { result ≤ℤ pos (2 ^ 91) }
{
    times as i128 * whole as i128 + part as i128
}

/// The sum of offsets.
fn total(offsets: &[i32]) -> i64
    requires { length offsets.now ≤ 255 }
    ensures value { result ≡ total offsets.now }
    ensures least { negsuc (2 ^ 40) ≤ℤ result }
    ensures most { result ≤ℤ pos (2 ^ 40) }
{
    let mut sum = 0;
    for offset in offsets {
        sum += *offset as i64;
    }
    sum
}
