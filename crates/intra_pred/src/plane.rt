// Plane prediction. H.264, 8.3.3.4 and 8.3.4.4.
ghost use Rattle.std.specs.Prelude.{◌≡◌, ℕ, ◌+◌, ◌*◌, ◌^◌, ◌<◌, ◌≤◌, pos, neg_ℤ, ◌+ℤ◌, ◌-ℤ◌, ◌*ℤ◌, ◌≤ℤ◌, length, slice_index};
ghost use Rattle.std.specs.Int.{int_shr};
ghost use Rattle.intra_pred.specs.Means.{clipped};
ghost use Rattle.intra_pred.specs.Plane.{IsStep, plane_at, steepness, step, value_at};
ghost use Rattle.intra_pred.specs.Sides.{sample_in};

use crate::rows::put_row;

// Writes a block of 2 * half rows and columns.
pub(crate) fn put_plane(
    block: &mut [u8],
    half: usize,
    factor: u32,
    left: &[u8],
    top: &[u8],
    corner: u8,
)
    requires some { 1 ≤ half }
    requires most { half ≤ 8 }
    requires factor { factor ≤ 34 }
    requires left { length left.now ≡ 2 * half }
    requires top { length top.now ≡ 2 * half }
    requires block { length block.old ≡ 2 * half * (2 * half) }
    ensures { (x y : ℕ) → x < 2 * half → y < 2 * half → sample_in (2 * half) block.new x y ≡ plane_at half factor left.now top.now corner x y }
{
    let last = 2 * half - 1;
    let across = step(half, factor, top, corner);
    let down = step(half, factor, left, corner);
    let mut first = first_value(half, left[last], top[last], across, down);
    for y in 0..2 * half {
        let row = slope(first, across);
        put_row(block, y, &row[..2 * half]);
        first += down;
    }
}

// The value of the first sample before it is divided by 32 and clipped.
fn first_value(half: usize, left: u8, top: u8, across: i32, down: i32) -> i32
    requires some { 1 ≤ half }
    requires most { half ≤ 8 }
    requires across { IsStep across }
    requires down { IsStep down }
    ensures value { result ≡ value_at half (pos (16 * (left + top))) across down 0 0 }
    ensures low { neg_ℤ (pos (2 ^ 18)) ≤ℤ result }
    ensures high { result ≤ℤ pos (2 ^ 18) }
{
    let ends = 16 * (u32::from(left) + u32::from(top));
    ends as i32 + back(half - 1, across) + back(half - 1, down) + 16
}

// So many steps back.
fn back(count: usize, step: i32) -> i32
    requires count { count ≤ 7 }
    requires step { IsStep step }
    ensures value { result ≡ step *ℤ (pos 0 -ℤ pos count) }
    ensures low { neg_ℤ (pos (7 * 2 ^ 14)) ≤ℤ result }
    ensures high { result ≤ℤ pos (7 * 2 ^ 14) }
{
    step * (0 - count as i32)
}

// The step from a sample to the next.
fn step(half: usize, factor: u32, side: &[u8], corner: u8) -> i32
    requires some { 1 ≤ half }
    requires most { half ≤ 8 }
    requires factor { factor ≤ 34 }
    requires side { length side.now ≡ 2 * half }
    ensures value { result ≡ step half factor side.now corner }
    ensures small { IsStep result }
{
    (factor as i32 * steepness(half, side, corner) + 32) >> 6
}

fn steepness(half: usize, side: &[u8], corner: u8) -> i32
    requires some { 1 ≤ half }
    requires most { half ≤ 8 }
    requires side { length side.now ≡ 2 * half }
    ensures value { result ≡ steepness half side.now corner }
    ensures low { neg_ℤ (pos 16320) ≤ℤ result }
    ensures high { result ≤ℤ pos 16320 }
{
    let mut sum = 0;
    for k in 0..half - 1 {
        sum += weighted(k + 1, side[half + k], side[half - 2 - k]);
    }
    sum + weighted(half, side[2 * half - 1], corner)
}

fn weighted(k: usize, a: u8, b: u8) -> i32
    requires { k ≤ 8 }
    ensures value { result ≡ pos k *ℤ (pos a -ℤ pos b) }
    ensures low { neg_ℤ (pos 2040) ≤ℤ result }
    ensures high { result ≤ℤ pos 2040 }
{
    k as i32 * (i32::from(a) - i32::from(b))
}

// A row, from its first value and the step.
fn slope(first: i32, step: i32) -> [u8; 16]
    requires first_low { neg_ℤ (pos (2 ^ 20)) ≤ℤ first }
    requires first_high { first ≤ℤ pos (2 ^ 20) }
    requires step { IsStep step }
    ensures { (x : ℕ) → x < 16 → slice_index result x ≡ clipped (int_shr (first +ℤ step *ℤ pos x) 5) }
{
    let mut row = [0; 16];
    let mut value = first;
    for x in 0..16 {
        row[x] = (value >> 5).clamp(0, 255) as u8;
        value += step;
    }
    row
}
