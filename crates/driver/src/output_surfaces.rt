// Output surfaces (vdpau.h, VdpOutputSurface..).
ghost use Rattle.std.specs.Prelude.{◌≡◌, length};
ghost use Rattle.driver_model.specs.declared.calls.Call.TheVariants as Call;
ghost use Rattle.driver_model.specs.declared.replies.Answer.TheVariants as Answer;
ghost use Rattle.driver.specs.Made.{IfRefused, Makes};
ghost use Rattle.driver.specs.Passes.{IsOf};

use crate::asked::{Ask, Fill};
use crate::driver::{Answered, Driver, Pass};
use driver_core::{Core, CoreAnswer};
use std::alloc::Global;
use std::sync::Wait;

#[derive(Drop)]
struct OutputCreate {
    alloc: Global,
    device: u32,
    format: u32,
    width: u32,
    height: u32,
}

impl Ask for OutputCreate {
    type Value = u32;

    ghost call = { λ ask. Call.OutputCreate ask.device ask.format ask.width ask.height };

    ghost answer = { Answer.Name };

    fn ask(&self, core: &mut Core) -> CoreAnswer<u32> {
        core.output_create(
            self.alloc,
            self.device,
            self.format,
            self.width,
            self.height,
        )
    }
}

#[derive(Drop)]
struct OutputPutBits<'a> {
    alloc: Global,
    surface: u32,
    bytes: &'a [u8],
}

impl<'a> Ask for OutputPutBits<'a> {
    type Value = ();

    ghost call = { λ ask. Call.OutputPutBits ask.surface ask.bytes.now };

    ghost answer = { λ _. Answer.Done };

    fn ask(&self, core: &mut Core) -> CoreAnswer<()> {
        core.output_put_bits(self.alloc, self.surface, self.bytes)
    }
}

#[derive(Drop)]
struct OutputDestroy {
    surface: u32,
}

impl Ask for OutputDestroy {
    type Value = ();

    ghost call = { λ ask. Call.OutputDestroy ask.surface };

    ghost answer = { λ _. Answer.Done };

    fn ask(&self, core: &mut Core) -> CoreAnswer<()> {
        core.output_destroy(self.surface)
    }
}

#[derive(Drop)]
struct OutputGetBits {
    surface: u32,
}

impl Fill for OutputGetBits {
    ghost call = { λ fill length. Call.OutputGetBits fill.surface length };

    fn fill(&self, core: &mut Core, out: &mut [u8]) -> CoreAnswer<()> {
        core.output_get_bits(self.surface, out)
    }
}

impl Driver {
    /// Makes an output surface of this format and these sides in pixels, which are rounded up to whole macroblocks
    /// (VdpOutputSurfaceCreate). Its bytes are 0. Refused are, in this order: a format other than `B8G8R8A8` and
    /// `R8G8B8A8`, sides that are out of range, and no room for a further object.
    pub fn output_create<R: Wait>(
        &self,
        rt: &R,
        alloc: Global,
        pass: Pass,
        device: u32,
        format: u32,
        width: u32,
        height: u32,
    ) -> Answered<u32>
        requires { IsOf pass self.now }
        ensures { Makes pass (Call.OutputCreate device format width height) Answer.Name result }
    {
        self.make(
            rt,
            pass,
            &OutputCreate {
                alloc,
                device,
                format,
                width,
                height,
            },
        )
    }

    /// Gives an output surface these pixels, row by row, four bytes each (VdpOutputSurfacePutBitsNative).
    /// Refusals and waiting are as for `output_get_bits`.
    pub fn output_put_bits<R: Wait>(
        &self,
        rt: &R,
        alloc: Global,
        pass: Pass,
        surface: u32,
        bytes: &[u8],
    ) -> Answered<()>
        requires { IsOf pass self.now }
        ensures { Makes pass (Call.OutputPutBits surface bytes.now) (λ _. Answer.Done) result }
    {
        self.make(
            rt,
            pass,
            &OutputPutBits {
                alloc,
                surface,
                bytes,
            },
        )
    }

    /// Destroys an output surface: its name is dead from now on (VdpOutputSurfaceDestroy). Its pixels stay while a
    /// queue shows it or has an entry of it.
    pub fn output_destroy<R: Wait>(&self, rt: &R, pass: Pass, surface: u32) -> Answered<()>
        requires { IsOf pass self.now }
        ensures { Makes pass (Call.OutputDestroy surface) (λ _. Answer.Done) result }
    {
        self.make(rt, pass, &OutputDestroy { surface })
    }

    /// Writes the pixels of an output surface to `out`, row by row, four bytes each
    /// (VdpOutputSurfaceGetBitsNative). A buffer of another length is refused. The call waits while a job writes
    /// the surface.
    pub fn output_get_bits<R: Wait>(
        &self,
        rt: &R,
        pass: Pass,
        surface: u32,
        out: &mut [u8],
    ) -> Answered<()>
        requires { IsOf pass self.now }
        ensures makes { Makes pass (Call.OutputGetBits surface (length out.old)) (λ _. Answer.Bytes out.new) result }
        ensures stays { IfRefused result.result (out.new ≡ out.old) }
    {
        self.fill(rt, pass, &OutputGetBits { surface }, out)
    }
}
