// Video surfaces (vdpau.h, VdpVideoSurface..).
ghost use Rattle.std.specs.Prelude.{◌≡◌, true, length, Err, IfOk, IfErr};
ghost use Rattle.driver_model.specs.Objects.{VideoObject, as_video};
ghost use Rattle.driver_model.specs.Sizes.{is_ycbcr_format};
ghost use Rattle.driver_model.specs.States.{State};
ghost use Rattle.driver_model.specs.Surfaces.{video_bits};
ghost use Rattle.driver_objects.specs.Kept.{kept_of};
ghost use Rattle.driver_objects.specs.Kinds.{is_video};
ghost use Rattle.driver_core.specs.Answered.{Calls, UnlessDone};
ghost use Rattle.driver_core.specs.Found.{FindsAt, HasBytes};
ghost use Rattle.driver_core.specs.Roles.{IsLiveAt};
ghost use Rattle.driver_core.specs.Stands.{Stands};

use crate::answer::CoreAnswer;
use crate::driver::Core;
use driver_model::{Answer, CHROMA_420, Call, SurfaceSize, VIDEO_SURFACE};
use driver_objects::arguments::{is_ycbcr_format, size_for};
use driver_objects::{Content, Stored, VideoSurface};
use std::alloc::Global;
use vd_plane::Picture;
use vd_status::Refusal;

impl Core {
    /// Makes a video surface of these sides in luma samples, which are rounded up to whole macroblocks
    /// (VdpVideoSurfaceCreate). Its samples are 0. Refused are, in this order: a chroma type other than 4:2:0,
    /// sides that are out of range, and no room for a further object.
    pub fn video_create(
        &mut self,
        alloc: Global,
        device: u32,
        chroma: u32,
        width: u32,
        height: u32,
    ) -> CoreAnswer<u32>
        ensures { Calls self.old self.new (Call.VideoCreate device chroma width height) Answer.Name result }
    {
        CoreAnswer::Now(self.make_video(alloc, device, chroma, width, height))
    }

    // Looks at what was asked, in order, and makes the surface.
    fn make_video(
        &mut self,
        alloc: Global,
        device: u32,
        chroma: u32,
        width: u32,
        height: u32,
    ) -> Result<u32, Refusal>
        ensures { Calls self.old self.new (Call.VideoCreate device chroma width height) Answer.Name (CoreAnswer.Now result) }
    {
        let on = self.on_device(device)?;
        if chroma != CHROMA_420 {
            return Err(Refusal::BadChroma);
        }
        let size = size_for(width, height)?;
        let Ok(picture) = Picture::of_size(alloc, size) else {
            return Err(Refusal::OutOfMemory);
        };
        let surface = Content::Video(VideoSurface {
            size,
            samples: Stored::Own(picture),
        });
        self.add(VIDEO_SURFACE, Some(on), surface)
    }

    /// The chroma type of a video surface, and its sides in luma samples (VdpVideoSurfaceGetParameters).
    pub fn video_parameters(&mut self, surface: u32) -> CoreAnswer<SurfaceSize>
        ensures { Calls self.old self.new (Call.VideoParameters surface) Answer.Size result }
    {
        match self.video(0, surface) {
            Ok(index) => {
                let size = self.video_at(index).size;
                CoreAnswer::Now(Ok(SurfaceSize {
                    chroma: CHROMA_420,
                    width: size.luma_width(),
                    height: size.luma_height(),
                }))
            }
            Err(refusal) => CoreAnswer::Now(Err(refusal)),
        }
    }

    /// Destroys a video surface: its name is dead from now on (VdpVideoSurfaceDestroy). A job that uses it goes on.
    pub fn video_destroy(&mut self, surface: u32) -> CoreAnswer<()>
        ensures { Calls self.old self.new (Call.VideoDestroy surface) (λ _. Answer.Done) result }
    {
        match self.video(0, surface) {
            Ok(index) => {
                self.destroy(index);
                CoreAnswer::Now(Ok(()))
            }
            Err(refusal) => CoreAnswer::Now(Err(refusal)),
        }
    }

    /// Copies the samples of a video surface in the format `NV12` or `YV12` (VdpVideoSurfaceGetBitsYCbCr). Refused
    /// are another format, and a buffer of another length than the samples'. Waits while a job writes the surface.
    pub fn video_get_bits(&mut self, surface: u32, format: u32, out: &mut [u8]) -> CoreAnswer<()>
        ensures calls { Calls self.old self.new (Call.VideoGetBits surface format (length out.old)) (λ _. Answer.Bytes out.new) result }
        ensures stays { UnlessDone result (out.new ≡ out.old) }
    {
        match self.video_bits(surface, format, out.len()) {
            Ok(index) => {
                if self.is_out(self.object(index).place) {
                    return CoreAnswer::Later;
                }
                bits_io::get(self.video_at(index).samples.get(), format, out);
                CoreAnswer::Now(Ok(()))
            }
            Err(refusal) => CoreAnswer::Now(Err(refusal)),
        }
    }

    /// Gives a video surface the samples that these bytes say in the format `NV12` or `YV12`
    /// (VdpVideoSurfacePutBitsYCbCr). Refusals and waiting are as for `video_get_bits`.
    pub fn video_put_bits(
        &mut self,
        alloc: Global,
        surface: u32,
        format: u32,
        bytes: &[u8],
    ) -> CoreAnswer<()>
        ensures { Calls self.old self.new (Call.VideoPutBits surface format bytes.now) (λ _. Answer.Done) result }
    {
        match self.video_bits(surface, format, bytes.len()) {
            Ok(index) => {
                if self.is_out(self.object(index).place) {
                    return CoreAnswer::Later;
                }
                let size = self.video_at(index).size;
                let Ok(mut picture) = Picture::of_size(alloc, size) else {
                    return CoreAnswer::Now(Err(Refusal::OutOfMemory));
                };
                bits_io::put(&mut picture, format, bytes);
                let samples = Stored::Own(picture);
                self.write(index, Content::Video(VideoSurface { size, samples }));
                CoreAnswer::Now(Ok(()))
            }
            Err(refusal) => CoreAnswer::Now(Err(refusal)),
        }
    }

    // Which of the kept objects is the video surface whose samples are so many bytes in a format.
    fn video_bits(&self, surface: u32, format: u32, count: usize) -> Result<usize, Refusal>
        ensures live { IfOk result (IsLiveAt is_video (kept_of self.now.objects)) }
        ensures finds { IfOk result (FindsAt as_video VideoObject self.now 0 surface) }
        ensures format { IfOk result (λ _. is_ycbcr_format format ≡ true) }
        ensures count { IfOk result (HasBytes (kept_of self.now.objects) count) }
        ensures refuses { IfErr result (λ refusal. (d : State) → Stands self.now d → video_bits d surface format count ≡ Err refusal) }
    {
        let index = self.video(0, surface)?;
        if !is_ycbcr_format(format) {
            return Err(Refusal::BadYCbCr);
        }
        if count != bits_io::byte_count(self.video_at(index).samples.get()) {
            return Err(Refusal::BadSize);
        }
        Ok(index)
    }
}
