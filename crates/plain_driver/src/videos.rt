// Video surfaces (vdpau.h, VdpVideoSurface..).
ghost use Rattle.std.specs.Prelude.{◌≡◌, ℕ, List, Some, IsSome, length, MatchOption, IfSome, OnErr, IfNone};
ghost use Rattle.bits_io.specs.ByteOrder.{bytes_of};
ghost use Rattle.driver_model.specs.Answers.{reply_with};
ghost use Rattle.driver_model.specs.Creates.{video_create};
ghost use Rattle.driver_model.specs.Objects.{as_video};
ghost use Rattle.driver_model.specs.Sizes.{is_ycbcr_format};
ghost use Rattle.driver_model.specs.States.{content_at};
ghost use Rattle.driver_model.specs.Steps.{Step};
ghost use Rattle.driver_model.specs.Surfaces.{video_bits};
ghost use Rattle.driver_model.specs.Waits.{Waits};
ghost use Rattle.driver_model.specs.declared.calls.Call.TheVariants as call;
ghost use Rattle.driver_model.specs.declared.replies.Answer.TheVariants.{Bytes, Done, Name, Size};
ghost use Rattle.plain_driver.specs.Looks.{placed};
ghost use Rattle.plain_driver.specs.States.{state_of, video_of};

use crate::driver::Plain;
use crate::objects::{PlainContent, PlainVideo};
use crate::sizes::{refused_if, sample_bytes, size_for};
use bits_io::{NV12, YV12};
use driver_model::{CHROMA_420, SurfaceSize};
use std::alloc::Global;
use vd_plane::Picture;
use vd_status::Refusal;

impl Plain {
    /// Makes a video surface whose samples are 0.
    pub fn video_create(
        &mut self,
        alloc: Global,
        device: u32,
        chroma: u32,
        width: u32,
        height: u32,
    ) -> Result<u32, Refusal>
        ensures { (caller : List ℕ) → Step (state_of self.old) caller (call.VideoCreate device chroma width height) (reply_with Name result) (state_of self.new) }
    {
        let place = self.room_for_video(device, chroma, width, height)?;
        let size = size_for(width, height)?;
        let Ok(picture) = Picture::of_size(alloc, size) else {
            return Err(Refusal::OutOfMemory);
        };
        self.add(place, PlainContent::Video(PlainVideo { size, picture }))
    }

    fn room_for_video(
        &self,
        device: u32,
        chroma: u32,
        width: u32,
        height: u32,
    ) -> Result<usize, Refusal>
        ensures { result ≡ video_create (state_of self.now) device chroma width height }
    {
        let place = self.device(device)?;
        refused_if(chroma != CHROMA_420, Refusal::BadChroma)?;
        size_for(width, height)?;
        self.room(false)?;
        Ok(place)
    }

    /// The sides of a video surface.
    pub fn video_parameters(&self, surface: u32) -> Result<SurfaceSize, Refusal>
        ensures { (caller : List ℕ) → Step (state_of self.now) caller (call.VideoParameters surface) (reply_with Size result) (state_of self.now) }
    {
        let place = self.video(surface)?;
        let size = self.video_in(place).size;
        Ok(SurfaceSize {
            chroma: CHROMA_420,
            width: size.luma_width(),
            height: size.luma_height(),
        })
    }

    /// Destroys a video surface.
    pub fn video_destroy(&mut self, surface: u32) -> Result<(), Refusal>
        ensures { (caller : List ℕ) → Step (state_of self.old) caller (call.VideoDestroy surface) (reply_with (λ nothing. Done) result) (state_of self.new) }
    {
        let place = self.video(surface)?;
        self.destroy(place);
        Ok(())
    }

    /// Reads the samples of a video surface in a format. None: the call waits, while a job writes them.
    pub fn video_get_bits(
        &self,
        surface: u32,
        format: u32,
        out: &mut [u8],
    ) -> Option<Result<(), Refusal>>
        ensures step { IfSome result (λ reply. (caller : List ℕ) → Step (state_of self.now) caller (call.VideoGetBits surface format (length out.old)) (reply_with (λ nothing. Bytes out.new) reply) (state_of self.now)) }
        ensures waits { IfNone result (Waits (state_of self.now) (call.VideoGetBits surface format (length out.old))) }
        ensures err { IfSome result (λ reply. OnErr reply (out.new ≡ out.old)) }
        ensures later { IfNone result (out.new ≡ out.old) }
    {
        let place = match self.video_bits(surface, format, out.len()) {
            Ok(place) => place,
            Err(refusal) => return Some(Err(refusal)),
        };
        if self.is_out(place) {
            return None;
        }
        bits_io::get(&self.video_in(place).picture, format, out);
        Some(Ok(()))
    }

    /// Takes the samples of a video surface from bytes in a format. None: the call waits, while a job writes
    /// the surface.
    pub fn video_put_bits(
        &mut self,
        alloc: Global,
        surface: u32,
        format: u32,
        bytes: &[u8],
    ) -> Option<Result<(), Refusal>>
        ensures step { IfSome result (λ reply. (caller : List ℕ) → Step (state_of self.old) caller (call.VideoPutBits surface format bytes.now) (reply_with (λ nothing. Done) reply) (state_of self.new)) }
        ensures waits { IfNone result (Waits (state_of self.old) (call.VideoPutBits surface format bytes.now)) }
        ensures later { IfNone result (state_of self.new ≡ state_of self.old) }
    {
        let place = match self.video_bits(surface, format, bytes.len()) {
            Ok(place) => place,
            Err(refusal) => return Some(Err(refusal)),
        };
        if self.is_out(place) {
            return None;
        }
        let size = self.video_in(place).size;
        let Ok(mut picture) = Picture::of_size(alloc, size) else {
            return Some(Err(Refusal::OutOfMemory));
        };
        bits_io::put(&mut picture, format, bytes);
        self.put(place, PlainContent::Video(PlainVideo { size, picture }));
        Some(Ok(()))
    }

    fn video_bits(&self, surface: u32, format: u32, count: usize) -> Result<usize, Refusal>
        ensures { result ≡ placed (video_bits (state_of self.now) surface format count) }
    {
        let place = self.video(surface)?;
        let size = self.video_in(place).size;
        refused_if(!is_ycbcr_format(format), Refusal::BadYCbCr)?;
        refused_if(count != sample_bytes(size), Refusal::BadSize)?;
        Ok(place)
    }

    // The video surface at a place.
    pub(crate) fn video_in(&self, place: usize) -> &PlainVideo
        requires { IsSome (content_at (state_of self.now) as_video place) }
        ensures { content_at (state_of self.now) as_video place ≡ Some (video_of result.now) }
    {
        match &self.objects[place].content {
            PlainContent::Video(video) => video,
            _ => unreachable!(),
        }
    }
}

fn is_ycbcr_format(format: u32) -> bool
    ensures { result ≡ is_ycbcr_format format }
{
    format == NV12 || format == YV12
}
