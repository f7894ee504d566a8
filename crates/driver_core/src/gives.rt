// What jobs have made for the surfaces that they write.
ghost use Rattle.std.specs.Prelude.{◌≡◌, ◌*◌, ◌<◌, length};
ghost use Rattle.cb_types.specs.SizeMbs.{luma_height, luma_width};
ghost use Rattle.vd_plane.specs.Picture.{HasSize};
ghost use Rattle.driver_objects.specs.Kept.{kept_of};
ghost use Rattle.driver_core.specs.Given.{GivesPicture, GivesPixels};

use crate::driver::Core;
use cb_types::SizeMbs;
use driver_objects::{Content, OutputSurface, Stored, VideoSurface};
use vd_plane::Picture;

impl Core {
    // Gives a video surface of this size the picture that a job has decoded for it.
    pub(crate) fn give_picture(&mut self, index: usize, size: SizeMbs, picture: Picture)
        requires there { index < length (kept_of self.old.objects) }
        requires size { HasSize picture size }
        ensures { GivesPicture self.old self.new index size picture }
    {
        let Content::Video(surface) = self.content(index) else {
            return;
        };
        if surface.size != size {
            return;
        }
        let samples = Stored::Own(picture);
        self.give(index, Content::Video(VideoSurface { size, samples }));
    }

    // Gives an output surface of this size the pixels that a job has mixed for it.
    pub(crate) fn give_pixels(&mut self, index: usize, size: SizeMbs, pixels: Vec<u8>)
        requires there { index < length (kept_of self.old.objects) }
        requires count { length pixels.items ≡ 4 * (luma_width size * luma_height size) }
        ensures { GivesPixels self.old self.new index size pixels.items }
    {
        let Content::Output(surface) = self.content(index) else {
            return;
        };
        if surface.size != size {
            return;
        }
        let surface = OutputSurface {
            format: surface.format,
            size,
            pixels: Stored::Own(pixels),
            last_flip: surface.last_flip,
            holder: surface.holder,
        };
        self.give(index, Content::Output(surface));
    }
}
