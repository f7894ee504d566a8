// Video surfaces (vdpau.h, VdpVideoSurface..).
ghost use Rattle.std.specs.Prelude.{◌≡◌, length};
ghost use Rattle.driver_model.specs.declared.calls.Call.TheVariants as Call;
ghost use Rattle.driver_model.specs.declared.replies.Answer.TheVariants as Answer;
ghost use Rattle.driver.specs.Made.{IfRefused, Makes};
ghost use Rattle.driver.specs.Passes.{IsOf};

use crate::asked::{Ask, Fill};
use crate::driver::{Answered, Driver, Pass};
use driver_core::{Core, CoreAnswer};
use driver_model::SurfaceSize;
use std::alloc::Global;
use std::sync::Wait;

#[derive(Drop)]
struct VideoCreate {
    alloc: Global,
    device: u32,
    chroma: u32,
    width: u32,
    height: u32,
}

impl Ask for VideoCreate {
    type Value = u32;

    ghost call = { λ ask. Call.VideoCreate ask.device ask.chroma ask.width ask.height };

    ghost answer = { Answer.Name };

    fn ask(&self, core: &mut Core) -> CoreAnswer<u32> {
        core.video_create(
            self.alloc,
            self.device,
            self.chroma,
            self.width,
            self.height,
        )
    }
}

#[derive(Drop)]
struct VideoParameters {
    surface: u32,
}

impl Ask for VideoParameters {
    type Value = SurfaceSize;

    ghost call = { λ ask. Call.VideoParameters ask.surface };

    ghost answer = { Answer.Size };

    fn ask(&self, core: &mut Core) -> CoreAnswer<SurfaceSize> {
        core.video_parameters(self.surface)
    }
}

#[derive(Drop)]
struct VideoPutBits<'a> {
    alloc: Global,
    surface: u32,
    format: u32,
    bytes: &'a [u8],
}

impl<'a> Ask for VideoPutBits<'a> {
    type Value = ();

    ghost call = { λ ask. Call.VideoPutBits ask.surface ask.format ask.bytes.now };

    ghost answer = { λ _. Answer.Done };

    fn ask(&self, core: &mut Core) -> CoreAnswer<()> {
        core.video_put_bits(self.alloc, self.surface, self.format, self.bytes)
    }
}

#[derive(Drop)]
struct VideoDestroy {
    surface: u32,
}

impl Ask for VideoDestroy {
    type Value = ();

    ghost call = { λ ask. Call.VideoDestroy ask.surface };

    ghost answer = { λ _. Answer.Done };

    fn ask(&self, core: &mut Core) -> CoreAnswer<()> {
        core.video_destroy(self.surface)
    }
}

#[derive(Drop)]
struct VideoGetBits {
    surface: u32,
    format: u32,
}

impl Fill for VideoGetBits {
    ghost call = { λ fill length. Call.VideoGetBits fill.surface fill.format length };

    fn fill(&self, core: &mut Core, out: &mut [u8]) -> CoreAnswer<()> {
        core.video_get_bits(self.surface, self.format, out)
    }
}

impl Driver {
    /// Makes a video surface of these sides in luma samples, which are rounded up to whole macroblocks
    /// (VdpVideoSurfaceCreate). Its samples are 0. Refused are, in this order: a chroma type other than 4:2:0,
    /// sides that are out of range, and no room for a further object.
    pub fn video_create<R: Wait>(
        &self,
        rt: &R,
        alloc: Global,
        pass: Pass,
        device: u32,
        chroma: u32,
        width: u32,
        height: u32,
    ) -> Answered<u32>
        requires { IsOf pass self.now }
        ensures { Makes pass (Call.VideoCreate device chroma width height) Answer.Name result }
    {
        self.make(
            rt,
            pass,
            &VideoCreate {
                alloc,
                device,
                chroma,
                width,
                height,
            },
        )
    }

    /// The chroma type of a video surface, and its sides in luma samples (VdpVideoSurfaceGetParameters).
    pub fn video_parameters<R: Wait>(
        &self,
        rt: &R,
        pass: Pass,
        surface: u32,
    ) -> Answered<SurfaceSize>
        requires { IsOf pass self.now }
        ensures { Makes pass (Call.VideoParameters surface) Answer.Size result }
    {
        self.make(rt, pass, &VideoParameters { surface })
    }

    /// Gives a video surface the samples that these bytes say in the format `NV12` or `YV12`
    /// (VdpVideoSurfacePutBitsYCbCr). Refusals and waiting are as for `video_get_bits`.
    pub fn video_put_bits<R: Wait>(
        &self,
        rt: &R,
        alloc: Global,
        pass: Pass,
        surface: u32,
        format: u32,
        bytes: &[u8],
    ) -> Answered<()>
        requires { IsOf pass self.now }
        ensures { Makes pass (Call.VideoPutBits surface format bytes.now) (λ _. Answer.Done) result }
    {
        self.make(
            rt,
            pass,
            &VideoPutBits {
                alloc,
                surface,
                format,
                bytes,
            },
        )
    }

    /// Destroys a video surface: its name is dead from now on (VdpVideoSurfaceDestroy). A job that uses it goes on.
    pub fn video_destroy<R: Wait>(&self, rt: &R, pass: Pass, surface: u32) -> Answered<()>
        requires { IsOf pass self.now }
        ensures { Makes pass (Call.VideoDestroy surface) (λ _. Answer.Done) result }
    {
        self.make(rt, pass, &VideoDestroy { surface })
    }

    /// Copies the samples of a video surface in the format `NV12` or `YV12` (VdpVideoSurfaceGetBitsYCbCr). Refused
    /// are another format, and a buffer of another length than the samples'. Waits while a job writes the surface.
    pub fn video_get_bits<R: Wait>(
        &self,
        rt: &R,
        pass: Pass,
        surface: u32,
        format: u32,
        out: &mut [u8],
    ) -> Answered<()>
        requires { IsOf pass self.now }
        ensures makes { Makes pass (Call.VideoGetBits surface format (length out.old)) (λ _. Answer.Bytes out.new) result }
        ensures stays { IfRefused result.result (out.new ≡ out.old) }
    {
        self.fill(rt, pass, &VideoGetBits { surface, format }, out)
    }
}
