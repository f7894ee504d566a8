// Pixels by sums of 32 bits, which suffice where coefficients are small.
ghost use Rattle.std.specs.Prelude.{◌≡◌, ℕ, ◌*◌, ◌<◌, ◌≤◌, ◌^◌, length, pos, ◌+ℤ◌, ◌*ℤ◌, unsigned_abs};
ghost use Rattle.std.specs.Int.{int_shr};
ghost use Rattle.mixer.specs.Colours.{AreSmall, IsSmall, bytes_under, in_row};
ghost use Rattle.mixer.specs.Mixed.{pixel_at};
ghost use Rattle.vd_plane.specs.SampleArray.{nearest};

use super::colours::{Colours, Weights};

// A coefficient times a sample.
#[inline(always)]
fn product(coefficient: i32, sample: u8) -> i32
    requires { unsigned_abs coefficient ≤ 2 ^ 20 }
    ensures value { result ≡ coefficient *ℤ pos sample }
    ensures bound { unsigned_abs result ≤ 267386880 }
{
    coefficient * i32::from(sample)
}

// What chroma and the constant add to a colour's sum, with its rounding.
#[inline(always)]
fn shared(weights: Weights, cb: u8, cr: u8) -> i32
    requires { IsSmall weights }
    ensures value { result ≡ (((weights.of_cb *ℤ pos cb) +ℤ (weights.of_cr *ℤ pos cr)) +ℤ weights.constant) +ℤ pos 128 }
    ensures bound { unsigned_abs result ≤ 1608515712 }
{
    product(weights.of_cb, cb) + product(weights.of_cr, cr) + weights.constant + 128
}

// A colour's sum over 256, brought into 0 to 255.
#[inline(always)]
fn colour(of_y: i32, y: u8, shared: i32) -> u8
    requires of_y { unsigned_abs of_y ≤ 2 ^ 20 }
    requires shared { unsigned_abs shared ≤ 1608515712 }
    ensures { result ≡ nearest 256 (int_shr ((of_y *ℤ pos y) +ℤ shared) 8) }
{
    ((product(of_y, y) + shared) >> 8).clamp(0, 255) as u8
}

// The pixel of these samples.
#[inline(always)]
fn pixel(colours: &Colours, y: u8, cb: u8, cr: u8) -> [u8; 4]
    requires small { AreSmall colours.now }
    ensures { result ≡ bytes_under colours.now y cb cr }
{
    let first = colours.first;
    let second = colours.second;
    let third = colours.third;
    [
        colour(first.of_y, y, shared(first, cb, cr)),
        colour(second.of_y, y, shared(second, cb, cr)),
        colour(third.of_y, y, shared(third, cb, cr)),
        255,
    ]
}

// Writes the pixels of a row of samples.
pub(crate) fn mix_row(luma: &[u8], cb: &[u8], cr: &[u8], colours: &Colours, out: &mut [u8])
    requires small { AreSmall colours.now }
    requires cb { 2 * length cb.now ≡ length luma.now }
    requires cr { 2 * length cr.now ≡ length luma.now }
    requires count { length out.old ≡ 4 * length luma.now }
    ensures { (x : ℕ) → x < length luma.now → pixel_at out.new x ≡ in_row colours.now luma.now cb.now cr.now x }
{
    for x in 0..luma.len() {
        let pixel = pixel(colours, luma[x], cb[x / 2], cr[x / 2]);
        out[4 * x..4 * x + 4].copy_from_slice(&pixel);
    }
}
