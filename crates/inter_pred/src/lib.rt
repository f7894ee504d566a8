// Inter prediction: samples between those of a reference picture, and weights.
#![tactic(auto)]

ghost use Rattle.std.specs.Prelude.{◌≡◌, ℕ, ◌+◌, ◌*◌, ◌^◌, ◌<◌, ◌≤◌, ℤ, pos, ◌+ℤ◌, unsigned_abs, length, slice_index};
ghost use Rattle.inter_pred.specs.Chroma.{chroma_at};
ghost use Rattle.inter_pred.specs.Luma.{luma_at};
ghost use Rattle.inter_pred.specs.Weights.{weighted};

use eighths::Eighths;
use parts::made_of;
use vd_plane::Plane;

mod blocks;
mod eighths;
mod lanes;
mod parts;
mod quarters;
mod rows;
mod weights;
mod windows;

/// Predicts a rectangle of `width` by `height` luma samples, written row by row, whose first sample is at
/// column `x` and row `y` of the reference plane, both in quarter samples (H.264, 8.4.2.2.1). Outside the
/// plane its nearest samples stand.
pub fn luma(plane: &Plane, x: i64, y: i64, width: u32, height: u32, out: &mut [u8])
    requires column { unsigned_abs x ≤ 2 ^ 20 }
    requires row { unsigned_abs y ≤ 2 ^ 20 }
    requires some_column { 1 ≤ width }
    requires columns { width ≤ 16 }
    requires some_row { 1 ≤ height }
    requires rows { height ≤ 16 }
    requires count { length out.old ≡ width * height }
    ensures { (i j : ℕ) → i < width → j < height → slice_index out.new (j * width + i) ≡ luma_at plane.now (x +ℤ pos (4 * i)) (y +ℤ pos (4 * j)) }
{
    let right = x.rem_euclid(4) as u32;
    let below = y.rem_euclid(4) as u32;
    let column = x.div_euclid(4);
    let row = y.div_euclid(4);
    if right == 0 && below == 0 {
        windows::copy(plane, column, row, width, height, out);
    } else {
        quarters::predict(
            plane,
            column,
            row,
            made_of(right, below),
            width,
            height,
            out,
        );
    }
}

/// Predicts a rectangle of `width` by `height` samples of a chroma plane, written row by row, whose first
/// sample is at column `x` and row `y` of the reference plane, both in eighths of a sample
/// (H.264, 8.4.2.2.2). Outside the plane its nearest samples stand.
pub fn chroma(plane: &Plane, x: i64, y: i64, width: u32, height: u32, out: &mut [u8])
    requires column { unsigned_abs x ≤ 2 ^ 20 }
    requires row { unsigned_abs y ≤ 2 ^ 20 }
    requires some_column { 1 ≤ width }
    requires columns { width ≤ 16 }
    requires some_row { 1 ≤ height }
    requires rows { height ≤ 16 }
    requires count { length out.old ≡ width * height }
    ensures { (i j : ℕ) → i < width → j < height → slice_index out.new (j * width + i) ≡ chroma_at plane.now (x +ℤ pos (8 * i)) (y +ℤ pos (8 * j)) }
{
    let right = x.rem_euclid(8) as u16;
    let below = y.rem_euclid(8) as u16;
    let column = x.div_euclid(8);
    let row = y.div_euclid(8);
    if right == 0 && below == 0 {
        windows::copy(plane, column, row, width, height, out);
    } else {
        eighths::predict(
            plane,
            column,
            row,
            Eighths { right, below },
            width,
            height,
            out,
        );
    }
}

/// Weighs predicted samples: each times `weight`, over 2 to the power of `denom`, rounded, plus `offset`
/// (H.264, 8.4.2.3, explicit, from one reference).
pub fn weigh(samples: &mut [u8], denom: u32, weight: i32, offset: i32)
    requires denom { denom ≤ 7 }
    requires weight { unsigned_abs weight ≤ 128 }
    requires offset { unsigned_abs offset ≤ 128 }
    ensures { (k : ℕ) → k < length samples.new → slice_index samples.new k ≡ weighted denom weight offset (slice_index samples.old k) }
{
    for sample in samples.iter_mut() {
        *sample = weights::weighted(*sample, denom, weight, offset);
    }
}
