// Bitmaps of red, green, blue and alpha.
ghost use Rattle.std.specs.Prelude.{◌≡◌, ◌*◌, ◌<◌, ◌≤◌, length};
ghost use Rattle.overlay_files.specs.Pixels.{IsBitmap, IsSide, pixels_of};

use std::marker::Model;

/// A bitmap with sides of 1 to 1,024: pixels of red, green, blue and alpha, row by row from the top.
#[derive(Drop)]
pub struct Bitmap {
    width: u32,
    height: u32,
    bytes: Vec<u8>,
}

impl Model for Bitmap {
    ghost use Rattle.overlay_files.specs.Pixels.{IsBitmap, PixelArray, pixels_of};

    ghost Value = { PixelArray };

    ghost view = { λ b. pixels_of b.width b.height b.bytes.items };

    ghost invariant = { λ b. IsBitmap (pixels_of b.width b.height b.bytes.items) };
}

impl Bitmap {
    // The bitmap of these sides and bytes.
    pub(crate) fn of(width: u32, height: u32, bytes: Vec<u8>) -> Bitmap
        requires { IsBitmap (pixels_of width height bytes.items) }
        ensures { result ≡ pixels_of width height bytes.items }
    {
        Bitmap {
            width,
            height,
            bytes,
        }
    }

    /// The number of pixels in a row.
    pub fn width(&self) -> u32
        ensures width { result ≡ self.now.width }
        ensures bitmap { IsBitmap self.now }
    {
        self.width
    }

    /// The number of rows.
    pub fn height(&self) -> u32
        ensures height { result ≡ self.now.height }
        ensures bitmap { IsBitmap self.now }
    {
        self.height
    }

    /// The bytes of all pixels, row by row.
    pub fn bytes(&self) -> &[u8]
        ensures bytes { result.now ≡ self.now.bytes }
        ensures bitmap { IsBitmap self.now }
    {
        self.bytes.as_slice()
    }
}
