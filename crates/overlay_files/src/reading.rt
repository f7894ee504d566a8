// Bitmaps from their files.
ghost use Rattle.std.specs.Prelude.{◌≡◌, ◌≢◌, ℕ, ◌<◌, ◌∷◌, ◌++◌, List, decimal, true, IfErr, IfOk, MatchOption};
ghost use Rattle.overlay_files.specs.Ended.{IsEnded, IsHeaded};
ghost use Rattle.overlay_files.specs.Pixels.{IsSide};
ghost use Rattle.overlay_files.specs.Reading.{Blames};
ghost use Rattle.overlay_files.specs.Texts.{IsBitmapFile, header_text};

use super::bitmap::Bitmap;
use super::fields::{Field, read_field};
use std::alloc::Global;

/// The longest side of a bitmap.
pub const LONGEST_SIDE: u64 = 1024;

/// Why bytes aren't read as a bitmap.
#[derive(Clone, Copy, Debug, PartialEq, Eq)]
pub enum BitmapFault {
    /// They are no bitmap's file.
    Bad,
    /// There is no memory for the pixels.
    OutOfMemory,
}

// The sides of a bitmap, and where its pixels begin.
#[derive(Clone, Copy)]
struct Header {
    width: u32,
    height: u32,
    end: usize,
}

/// Reads a bitmap's file: a line `RGBA <width> <height>` with the sides in decimal without leading zeros,
/// each from 1 to 1,024, a line feed, and red, green, blue and alpha of each pixel, row by row from the
/// top, with nothing behind.
pub fn read_bitmap(alloc: Global, bytes: &[u8]) -> Result<Bitmap, BitmapFault>
    ensures ok { IfOk result (λ bitmap. IsBitmapFile bitmap bytes.now) }
    ensures err { IfErr result (λ fault. Blames bytes.now fault) }
{
    let Some(header) = read_header(bytes) else {
        return Err(BitmapFault::Bad);
    };
    let pixels = &bytes[header.end..];
    if pixels.len() != 4 * (header.width as usize * header.height as usize) {
        return Err(BitmapFault::Bad);
    }
    match Vec::from_slice(alloc, pixels) {
        Ok(pixels) => Ok(Bitmap::of(header.width, header.height, pixels)),
        Err(_) => Err(BitmapFault::OutOfMemory),
    }
}

// The first line of a bitmap's file.
fn read_header(text: &[u8]) -> Option<Header>
    ensures { MatchOption result ((w h : ℕ) (rest : List ℕ) → IsSide w → IsSide h → text.now ≢ header_text w h ++ rest) (λ r. IsHeaded text.now r.width r.height r.end) }
{
    let Some(operands) = text.strip_prefix(b"RGBA ") else {
        return None;
    };
    let Some(width) = read_side(operands, b' ') else {
        return None;
    };
    let Some(height) = read_side(&operands[width.end..], b'\n') else {
        return None;
    };
    Some(Header {
        width: width.number as u32,
        height: height.number as u32,
        end: 5 + width.end + height.end,
    })
}

// The side that the text begins with, where this byte ends it.
fn read_side(text: &[u8], ending: u8) -> Option<Field>
    requires { ending < 48 }
    ensures { MatchOption result ((n : ℕ) (rest : List ℕ) → IsSide n → text.now ≢ decimal n ++ ending ∷ rest) (λ f. IsSide f.number × IsEnded text.now ending f.number f.end) }
{
    let Some(side) = read_field(text, ending) else {
        return None;
    };
    if is_side(side.number) {
        Some(side)
    } else {
        None
    }
}

fn is_side(number: u64) -> bool
    ensures yes { result ≡ true → IsSide number }
    ensures no { IsSide number → result ≡ true }
{
    1 <= number && number <= LONGEST_SIDE
}
