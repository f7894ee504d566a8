// Residual samples of 4x4 blocks. H.264, 8.5.12.
ghost use Rattle.std.specs.Prelude.{◌≡◌, ℕ, ◌+◌, ◌*◌, ◌^◌, ◌<◌, ◌≤◌, ◌↔◌, pos, ◌+ℤ◌, ◌*ℤ◌, IsTrue, map, Some, length};
ghost use Rattle.std.specs.Int.{int_shr};
ghost use Rattle.std.specs.List.{All};
ghost use Rattle.std.specs.Option.{ForSome};
ghost use Rattle.int_transform.specs.Bounds.{AreWithin, IsWithin};
ghost use Rattle.int_transform.specs.Scan.{value_at};
ghost use Rattle.int_transform.specs.Residual.{residual_at, sample_from, scale_at, transformed};

use crate::layout::by_rows;
use cb_tables::level_scale;

/// The residual samples of a 4x4 block by rows from the top, from levels in scan order, for a QP of 0 to 51.
/// Where the DC value is given, it is taken as it is, and the levels of the other 15 places stand at 0 to 14.
/// H.264, 8.5.12.
pub fn residual(levels: &[i32; 16], dc: Option<i32>, qp: u32) -> [i32; 16]
    requires levels { AreWithin 4096 levels.now }
    requires dc { ForSome dc (IsWithin (2 ^ 27)) }
    requires qp { qp ≤ 51 }
    ensures samples { (row column : ℕ) → row < 4 → column < 4 → value_at result (4 * row + column) ≡ residual_at levels.now dc qp row column }
    ensures within { AreWithin (2 ^ 25) result }
{
    match dc {
        None => block(scaled(levels[0], scale(qp, 0)), &levels[1..], qp),
        Some(dc) => block(dc, levels.as_slice(), qp),
    }
}

// The samples of a block with this DC value, and these levels behind it.
#[inline]
fn block(dc: i32, ac: &[i32], qp: u32) -> [i32; 16]
    requires dc { IsWithin (2 ^ 27) dc }
    requires count { 15 ≤ length ac.now }
    requires ac { AreWithin 4096 ac.now }
    requires qp { qp ≤ 51 }
    ensures samples { (row column : ℕ) → row < 4 → column < 4 → value_at result (4 * row + column) ≡ residual_at ac.now (Some dc) qp row column }
    ensures within { AreWithin (2 ^ 25) result }
{
    if are_zero(&ac[..15]) {
        flat(dc)
    } else {
        full(dc, ac, qp)
    }
}

#[inline]
fn are_zero(levels: &[i32]) -> bool
    ensures { IsTrue result ↔ All (λ level. level ≡ pos 0) levels.now }
{
    levels.iter().all(|level| *level == 0)
}

// The samples of a block that has a DC value alone.
#[inline]
fn flat(dc: i32) -> [i32; 16]
    requires { IsWithin (2 ^ 27) dc }
    ensures samples { (k : ℕ) → k < 16 → value_at result k ≡ int_shr (dc +ℤ pos 32) 6 }
    ensures within { AreWithin (2 ^ 25) result }
{
    [(dc + 32) >> 6; 16]
}

#[inline]
fn full(dc: i32, ac: &[i32], qp: u32) -> [i32; 16]
    requires dc { IsWithin (2 ^ 27) dc }
    requires count { 15 ≤ length ac.now }
    requires ac { AreWithin 4096 ac.now }
    requires qp { qp ≤ 51 }
    ensures samples { (row column : ℕ) → row < 4 → column < 4 → value_at result (4 * row + column) ≡ residual_at ac.now (Some dc) qp row column }
    ensures within { AreWithin (2 ^ 25) result }
{
    let even = scale(qp, 0);
    let odd = scale(qp, 5);
    let mixed = scale(qp, 1);
    let second = scaled(ac[1], mixed);
    let third = scaled(ac[2], even);
    let fourth = scaled(ac[8], mixed);
    columns(
        row(dc, ac, 0, 4, 5, mixed, even),
        row(second, ac, 3, 6, 11, odd, mixed),
        row(third, ac, 7, 10, 12, mixed, even),
        row(fourth, ac, 9, 13, 14, odd, mixed),
    )
}

// A row, transformed, from its first value and its levels, whose scale is one in odd columns and another in even ones.
#[inline]
fn row(d0: i32, ac: &[i32], i: usize, j: usize, k: usize, odd: i32, even: i32) -> [i32; 4]
    requires d0 { IsWithin (2 ^ 27) d0 }
    requires ac { AreWithin 4096 ac.now }
    requires i { i < length ac.now }
    requires j { j < length ac.now }
    requires k { k < length ac.now }
    requires odd { IsWithin (29 * 2 ^ 8) odd }
    requires even { IsWithin (29 * 2 ^ 8) even }
    ensures is { result ≡ transformed d0 (value_at ac.now i *ℤ odd) (value_at ac.now j *ℤ even) (value_at ac.now k *ℤ odd) }
    ensures within { AreWithin (2 ^ 29) result }
{
    transformed(
        d0,
        scaled(ac[i], odd),
        scaled(ac[j], even),
        scaled(ac[k], odd),
    )
}

// What a level is multiplied by at a place.
#[inline]
pub(crate) fn scale(qp: u32, place: u32) -> i32
    requires qp { qp ≤ 51 }
    requires place { place ≤ 15 }
    ensures value { result ≡ pos (scale_at qp place) }
    ensures limit { scale_at qp place ≤ 29 * 2 ^ 8 }
{
    (level_scale(qp % 6, place) << (qp / 6)) as i32
}

#[inline]
fn scaled(level: i32, scale: i32) -> i32
    requires level { IsWithin 4096 level }
    requires scale { IsWithin (29 * 2 ^ 8) scale }
    ensures value { result ≡ level *ℤ scale }
    ensures within { IsWithin (2 ^ 27) result }
{
    level * scale
}

// The samples, from the four rows transformed.
#[inline]
fn columns(first: [i32; 4], second: [i32; 4], third: [i32; 4], fourth: [i32; 4]) -> [i32; 16]
    requires first { AreWithin (2 ^ 29) first }
    requires second { AreWithin (2 ^ 29) second }
    requires third { AreWithin (2 ^ 29) third }
    requires fourth { AreWithin (2 ^ 29) fourth }
    ensures samples { (row column : ℕ) → row < 4 → column < 4 → value_at result (4 * row + column) ≡ sample_from first second third fourth row column }
    ensures within { AreWithin (2 ^ 25) result }
{
    by_rows(
        column(first[0], second[0], third[0], fourth[0]),
        column(first[1], second[1], third[1], fourth[1]),
        column(first[2], second[2], third[2], fourth[2]),
        column(first[3], second[3], third[3], fourth[3]),
    )
}

// A column of samples.
#[inline]
fn column(d0: i32, d1: i32, d2: i32, d3: i32) -> [i32; 4]
    requires d0 { IsWithin (2 ^ 29) d0 }
    requires d1 { IsWithin (2 ^ 29) d1 }
    requires d2 { IsWithin (2 ^ 29) d2 }
    requires d3 { IsWithin (2 ^ 29) d3 }
    ensures { result ≡ map (λ h. int_shr (h +ℤ pos 32) 6) (transformed d0 d1 d2 d3) }
{
    let [h0, h1, h2, h3] = transformed(d0, d1, d2, d3);
    [
        (h0 + 32) >> 6,
        (h1 + 32) >> 6,
        (h2 + 32) >> 6,
        (h3 + 32) >> 6,
    ]
}

// A row or a column of four values, transformed.
#[inline]
fn transformed(d0: i32, d1: i32, d2: i32, d3: i32) -> [i32; 4]
    requires d0 { IsWithin (2 ^ 29) d0 }
    requires d1 { IsWithin (2 ^ 29) d1 }
    requires d2 { IsWithin (2 ^ 29) d2 }
    requires d3 { IsWithin (2 ^ 29) d3 }
    ensures { result ≡ transformed d0 d1 d2 d3 }
{
    let e0 = d0 + d2;
    let e1 = d0 - d2;
    let e2 = (d1 >> 1) - d3;
    let e3 = d1 + (d3 >> 1);
    [e0 + e3, e1 + e2, e1 - e2, e0 - e3]
}
