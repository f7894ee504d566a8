// Bitmaps over the pixels of a picture.
ghost use Rattle.std.specs.Prelude.{◌≡◌, ℕ, ◌+◌, ◌*◌, ◌<◌, ◌≤◌, length};
ghost use Rattle.mixer.specs.Mixed.{pixel_at};
ghost use Rattle.overlay_files.specs.Blended.{IsBlended, colour_over, over};
ghost use Rattle.overlay_files.specs.Pixels.{pixels_of};

use super::bitmap::Bitmap;

/// Lays a bitmap over pixels, blue, green, red and a fourth byte each, row by row: its first pixel over
/// the one in column `x` of row `y`. The pixels under it become opaque, all others stay; what falls
/// outside isn't drawn.
pub fn blend(pixels: &mut [u8], width: u32, height: u32, bitmap: &Bitmap, x: u32, y: u32)
    requires columns { width ≤ 4096 }
    requires rows { height ≤ 4096 }
    requires count { length pixels.old ≡ 4 * (width * height) }
    requires x { x ≤ 4095 }
    requires y { y ≤ 4095 }
    ensures { IsBlended (pixels_of width height pixels.old) bitmap.now x y (pixels_of width height pixels.new) }
{
    if x >= width {
        return;
    }
    let line = 4 * bitmap.width() as usize;
    let columns = common(width, x, bitmap.width());
    let rows = common(height, y, bitmap.height());
    let bytes = 4 * columns as usize;
    for row in 0..rows {
        let from = row as usize * line;
        let start = 4 * ((y + row) as usize * width as usize + x as usize);
        blend_row(
            &bitmap.bytes()[from..from + bytes],
            &mut pixels[start..start + bytes],
        );
    }
}

// How many places from `at` on are on a side of which `other` would be taken.
fn common(side: u32, at: u32, other: u32) -> u32
    ensures few { result ≤ other }
    ensures within { at < side → at + result ≤ side }
    ensures empty { side ≤ at → result ≡ 0 }
    ensures all { (n : ℕ) → n < other → at + n < side → n < result }
{
    if at >= side {
        0
    } else if side - at < other {
        side - at
    } else {
        other
    }
}

// Lays a row of pixels over as many others.
fn blend_row(upper: &[u8], lower: &mut [u8])
    requires count { length upper.now ≡ length lower.old }
    ensures { (n : ℕ) → 4 * n + 4 ≤ length lower.old → pixel_at lower.new n ≡ over (pixel_at upper.now n) (pixel_at lower.old n) }
{
    for n in 0..lower.len() / 4 {
        let pixel = laid_over(pixel(upper, n), pixel(lower, n));
        lower[4 * n..4 * n + 4].copy_from_slice(&pixel);
    }
}

// A pixel by its number.
fn pixel(bytes: &[u8], n: usize) -> [u8; 4]
    requires { 4 * n + 4 ≤ length bytes.now }
    ensures { result ≡ pixel_at bytes.now n }
{
    [
        bytes[4 * n],
        bytes[4 * n + 1],
        bytes[4 * n + 2],
        bytes[4 * n + 3],
    ]
}

// A pixel over another one.
fn laid_over(upper: [u8; 4], lower: [u8; 4]) -> [u8; 4]
    ensures { result ≡ over upper lower }
{
    let alpha = upper[3];
    [
        colour_over(upper[2], alpha, lower[0]),
        colour_over(upper[1], alpha, lower[1]),
        colour_over(upper[0], alpha, lower[2]),
        255,
    ]
}

// A colour over another one.
fn colour_over(upper: u8, alpha: u8, lower: u8) -> u8
    ensures { result ≡ colour_over upper alpha lower }
{
    let above = u32::from(upper) * u32::from(alpha);
    let below = u32::from(lower) * (255 - u32::from(alpha));
    ((above + below + 127) / 255) as u8
}
