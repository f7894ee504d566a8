//! The video mixer: pictures as pixels of red, green and blue.
#![tactic(auto)]

mod colours;
mod narrow;
mod wide;

ghost use Rattle.std.specs.Prelude.{◌≡◌, ℕ, ◌*◌, ◌<◌, ◌≤◌, length, IsTrue};
ghost use Rattle.mixer.specs.Colours.{AreSmall, in_row};
ghost use Rattle.mixer.specs.Mixed.{IsMixed, PixelsAreAll, pixel_at};

use colours::Colours;
use vd_plane::Picture;

/// The bytes of a pixel in the order blue, green, red, alpha (`VDP_RGBA_FORMAT_B8G8R8A8`).
pub const B8G8R8A8: u32 = 0;

/// The bytes of a pixel in the order red, green, blue, alpha (`VDP_RGBA_FORMAT_R8G8B8A8`).
pub const R8G8B8A8: u32 = 1;

/// The matrix of a new mixer: Y from 16 to 235 and chroma from 16 to 240 (ITU-R BT.601) as red, green
/// and blue from 0 to 255. Coefficients count 256 to the whole.
pub const DEFAULT_MATRIX: [i32; 12] = [
    298, 0, 409, -57120, 298, -100, -208, 34656, 298, 516, 0, -70816,
];

/// Writes the pixels of a picture, row by row, in a format, `B8G8R8A8` or `R8G8B8A8`.
///
/// The matrix has three rows, of red, green and blue, each with the coefficients of Y, Cb and Cr, of
/// which 256 are the whole, and a constant. Each chroma sample serves the four pixels around it.
pub fn mix(picture: &Picture, matrix: &[i32; 12], format: u32, out: &mut [u8])
    requires format { format ≤ R8G8B8A8 }
    requires count { length out.old ≡ 4 * (picture.now.y.width * picture.now.y.height) }
    ensures { IsMixed picture.now matrix.now format out.new }
{
    let colours = Colours::of(matrix, format);
    let is_small = colours.is_small();
    let bytes = 4 * picture.y.width() as usize;
    for y in 0..picture.y.height() {
        let start = y as usize * bytes;
        mix_row(
            picture.y.row(y),
            picture.cb.row(y / 2),
            picture.cr.row(y / 2),
            &colours,
            is_small,
            &mut out[start..start + bytes],
        );
    }
}

// Writes the pixels of a row of samples, by sums of 32 bits where these suffice.
fn mix_row(luma: &[u8], cb: &[u8], cr: &[u8], colours: &Colours, is_small: bool, out: &mut [u8])
    requires small { IsTrue is_small → AreSmall colours.now }
    requires cb { 2 * length cb.now ≡ length luma.now }
    requires cr { 2 * length cr.now ≡ length luma.now }
    requires count { length out.old ≡ 4 * length luma.now }
    ensures { (x : ℕ) → x < length luma.now → pixel_at out.new x ≡ in_row colours.now luma.now cb.now cr.now x }
{
    if is_small {
        narrow::mix_row(luma, cb, cr, colours, out);
    } else {
        wide::mix_row(luma, cb, cr, colours, out);
    }
}

/// A picture's pixels are all that `mix` writes: no other bytes have them.
pub fn pixels_are_all()
    ensures { PixelsAreAll }
{}
