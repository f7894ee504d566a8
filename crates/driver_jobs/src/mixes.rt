// The mixing of a picture into pixels (vdpau.h, VdpVideoMixerRender).
ghost use Rattle.std.specs.Prelude.{◌≡◌, ◌≤◌, ◌*◌, length};
ghost use Rattle.std.specs.Arc.{arc_value};
ghost use Rattle.cb_types.specs.SizeMbs.{luma_height, luma_width};
ghost use Rattle.vd_plane.specs.Picture.{HasSize};

use cb_types::SizeMbs;
use mixer::mix;
use std::sync::Arc;
use vd_plane::Picture;

/// A picture that is to be mixed: its samples, which are shared, the matrix and the format of the pixels, and
/// the memory for them.
#[derive(Drop)]
pub struct CoreMix {
    // By it the driver finds what it keeps of the job.
    number: u64,
    size: SizeMbs,
    picture: Arc<Picture>,
    matrix: [i32; 12],
    format: u32,
    pixels: Vec<u8>,
    ghost known: { format ≤ 1 },
    ghost sized: { HasSize (arc_value picture) size },
    ghost filled: { length pixels.items ≡ 4 * (luma_width size * luma_height size) },
}

impl CoreMix {
    ghost use Rattle.std.specs.Prelude.{◌≡◌, ◌≤◌, ◌*◌, length};
    ghost use Rattle.std.specs.Arc.{arc_value};
    ghost use Rattle.cb_types.specs.SizeMbs.{luma_height, luma_width};
    ghost use Rattle.mixer.specs.declared.TheConstants.{R8G8B8A8};
    ghost use Rattle.vd_plane.specs.Picture.{HasSize};
    ghost use Rattle.driver_jobs.specs.Mixes.{IsDoneOf, format_of, held_by, matrix_of, number_of, picture_of, size_of};

    /// The job of this number: the mixing of a picture of this size into pixels of this format, for which these
    /// bytes are the memory.
    pub fn new(
        number: u64,
        size: SizeMbs,
        picture: Arc<Picture>,
        matrix: [i32; 12],
        format: u32,
        pixels: Vec<u8>,
    ) -> CoreMix
        requires format { format ≤ R8G8B8A8 }
        requires size { HasSize (arc_value picture) size }
        requires count { length pixels.items ≡ 4 * (luma_width size * luma_height size) }
        ensures number { number_of result ≡ number }
        ensures size { size_of result ≡ size }
        ensures picture { picture_of result ≡ arc_value picture }
        ensures matrix { matrix_of result ≡ matrix }
        ensures format { format_of result ≡ format }
        ensures pixels { held_by result ≡ pixels.items }
    {
        CoreMix {
            number,
            size,
            picture,
            matrix,
            format,
            pixels,
        }
    }

    /// Mixes the picture.
    pub fn run(self) -> CoreMixDone
        ensures { IsDoneOf self result }
    {
        let CoreMix {
            number,
            size,
            picture,
            matrix,
            format,
            mut pixels,
        } = self;
        mix(&picture, &matrix, format, &mut pixels);
        CoreMixDone {
            number,
            size,
            pixels,
        }
    }
}

/// A picture that was mixed.
#[derive(Drop)]
pub struct CoreMixDone {
    number: u64,
    size: SizeMbs,
    pixels: Vec<u8>,
    ghost filled: { length pixels.items ≡ 4 * (luma_width size * luma_height size) },
}

impl CoreMixDone {
    ghost use Rattle.std.specs.Prelude.{◌≡◌, ◌*◌, length};
    ghost use Rattle.cb_types.specs.SizeMbs.{luma_height, luma_width};
    ghost use Rattle.driver_jobs.specs.Mixes.{done_number, done_size, pixels_of};

    /// The job's number.
    pub fn number(&self) -> u64
        ensures { result ≡ done_number self.now }
    {
        self.number
    }

    /// The size of the picture in macroblocks.
    pub fn size(&self) -> SizeMbs
        ensures { result ≡ done_size self.now }
    {
        self.size
    }

    /// Its pixels, row by row, four bytes each.
    pub fn pixels(self) -> Vec<u8>
        ensures pixels { result.items ≡ pixels_of self }
        ensures count { length result.items ≡ 4 * (luma_width (done_size self) * luma_height (done_size self)) }
    {
        self.pixels
    }
}
