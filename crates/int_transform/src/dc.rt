// The DC values of the blocks of a macroblock. H.264, 8.5.10 and 8.5.11.
ghost use Rattle.std.specs.Prelude.{◌≡◌, ℕ, ◌+◌, ◌*◌, ◌^◌, ◌<◌, ◌≤◌, pos, ◌*ℤ◌, map};
ghost use Rattle.std.specs.Int.{int_shr};
ghost use Rattle.int_transform.specs.Bounds.{AreWithin, IsWithin};
ghost use Rattle.int_transform.specs.DcBlocks.{chroma_dc_at, dc_from, luma_dc_at, scaled_dc, times_four};
ghost use Rattle.int_transform.specs.Residual.{scale_at};
ghost use Rattle.int_transform.specs.Scan.{value_at};

use crate::blocks::scale;
use crate::layout::by_rows;

/// The DC values of the luma blocks of an Intra16x16 macroblock by row and column of the blocks, 4 * row + column,
/// from levels in scan order, for a QP of 0 to 51. H.264, 8.5.10.
pub fn luma_dc(levels: &[i32; 16], qp: u32) -> [i32; 16]
    requires levels { AreWithin 4096 levels.now }
    requires qp { qp ≤ 51 }
    ensures values { (row column : ℕ) → row < 4 → column < 4 → value_at result (4 * row + column) ≡ luma_dc_at levels.now qp row column }
    ensures within { AreWithin (2 ^ 27) result }
{
    columns(
        times_four(levels[0], levels[1], levels[5], levels[6]),
        times_four(levels[2], levels[4], levels[7], levels[12]),
        times_four(levels[3], levels[8], levels[11], levels[13]),
        times_four(levels[9], levels[10], levels[14], levels[15]),
        qp,
    )
}

// The DC values, from the four rows multiplied.
#[inline]
fn columns(
    first: [i32; 4],
    second: [i32; 4],
    third: [i32; 4],
    fourth: [i32; 4],
    qp: u32,
) -> [i32; 16]
    requires first { AreWithin (2 ^ 14) first }
    requires second { AreWithin (2 ^ 14) second }
    requires third { AreWithin (2 ^ 14) third }
    requires fourth { AreWithin (2 ^ 14) fourth }
    requires qp { qp ≤ 51 }
    ensures values { (row column : ℕ) → row < 4 → column < 4 → value_at result (4 * row + column) ≡ dc_from first second third fourth qp row column }
    ensures within { AreWithin (2 ^ 27) result }
{
    by_rows(
        column(first[0], second[0], third[0], fourth[0], qp),
        column(first[1], second[1], third[1], fourth[1], qp),
        column(first[2], second[2], third[2], fourth[2], qp),
        column(first[3], second[3], third[3], fourth[3], qp),
    )
}

// A column of DC values, from the same column of the four rows multiplied.
#[inline]
fn column(c0: i32, c1: i32, c2: i32, c3: i32, qp: u32) -> [i32; 4]
    requires c0 { IsWithin (2 ^ 14) c0 }
    requires c1 { IsWithin (2 ^ 14) c1 }
    requires c2 { IsWithin (2 ^ 14) c2 }
    requires c3 { IsWithin (2 ^ 14) c3 }
    requires qp { qp ≤ 51 }
    ensures values { result ≡ map (λ f. scaled_dc f qp) (times_four c0 c1 c2 c3) }
    ensures within { AreWithin (2 ^ 27) result }
{
    let [f0, f1, f2, f3] = times_four(c0, c1, c2, c3);
    [
        scaled_dc(f0, qp),
        scaled_dc(f1, qp),
        scaled_dc(f2, qp),
        scaled_dc(f3, qp),
    ]
}

// Four values, multiplied by the matrix.
#[inline]
fn times_four(c0: i32, c1: i32, c2: i32, c3: i32) -> [i32; 4]
    requires c0 { IsWithin (2 ^ 14) c0 }
    requires c1 { IsWithin (2 ^ 14) c1 }
    requires c2 { IsWithin (2 ^ 14) c2 }
    requires c3 { IsWithin (2 ^ 14) c3 }
    ensures { result ≡ times_four c0 c1 c2 c3 }
{
    let front_sum = c0 + c1;
    let front_difference = c0 - c1;
    let back_sum = c2 + c3;
    let back_difference = c2 - c3;
    [
        front_sum + back_sum,
        front_sum - back_sum,
        front_difference - back_difference,
        front_difference + back_difference,
    ]
}

// A quarter of the scaled value, rounded, which is exact from QP 12 on.
#[inline]
fn scaled_dc(f: i32, qp: u32) -> i32
    requires f { IsWithin (2 ^ 16) f }
    requires qp { qp ≤ 51 }
    ensures value { result ≡ scaled_dc f qp }
    ensures within { IsWithin (2 ^ 27) result }
{
    (f * scale(qp, 0) + 2) >> 2
}

/// The DC values of the chroma blocks of a macroblock, 2 * row + column, from levels row by row, for a QPc of
/// 0 to 51. H.264, 8.5.11.
pub fn chroma_dc(levels: &[i32; 4], qpc: u32) -> [i32; 4]
    requires levels { AreWithin 4096 levels.now }
    requires qpc { qpc ≤ 51 }
    ensures values { (row column : ℕ) → row < 2 → column < 2 → value_at result (2 * row + column) ≡ chroma_dc_at levels.now qpc row column }
    ensures within { AreWithin (2 ^ 27) result }
{
    let [sum, down, diagonal, across] = times_four(levels[0], levels[1], levels[2], levels[3]);
    let scale = scale(qpc, 0);
    [
        half(sum, scale),
        half(across, scale),
        half(down, scale),
        half(diagonal, scale),
    ]
}

// Half of a scaled value, rounded down.
#[inline]
fn half(f: i32, scale: i32) -> i32
    requires f { IsWithin (2 ^ 14) f }
    requires scale { IsWithin (29 * 2 ^ 8) scale }
    ensures value { result ≡ int_shr (f *ℤ scale) 1 }
    ensures within { IsWithin (2 ^ 27) result }
{
    (f * scale) >> 1
}
