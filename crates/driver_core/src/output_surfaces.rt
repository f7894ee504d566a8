// Output surfaces (vdpau.h, VdpOutputSurface..).
ghost use Rattle.std.specs.Prelude.{◌≡◌, ℕ, ◌<◌, true, length, slice_get, Some, Err, IfOk, IfErr, IfSome, IfNone};
ghost use Rattle.std.specs.List.{list_any};
ghost use Rattle.cb_types.specs.SizeMbs.{IsWithinLimits};
ghost use Rattle.driver_model.specs.Objects.{OutputObject, as_output};
ghost use Rattle.driver_model.specs.Sizes.{is_rgba_format, pixel_bytes};
ghost use Rattle.driver_model.specs.States.{State};
ghost use Rattle.driver_model.specs.Surfaces.{output_bits};
ghost use Rattle.driver_objects.specs.Contents.{HasContent};
ghost use Rattle.driver_objects.specs.Kept.{kept_of};
ghost use Rattle.driver_objects.specs.Kinds.{has_own_holder, holder_of, is_output};
ghost use Rattle.driver_core.specs.Answered.{Calls, UnlessDone};
ghost use Rattle.driver_core.specs.Found.{FindsAt, HasPixels, Refuses};
ghost use Rattle.driver_core.specs.Roles.{IsLiveAt};
ghost use Rattle.driver_core.specs.Stands.{Stands};

use crate::answer::CoreAnswer;
use crate::driver::Core;
use driver_model::{Answer, Call, OUTPUT_SURFACE};
use driver_objects::arguments::{is_rgba_format, pixel_bytes, size_for};
use driver_objects::{Content, OutputSurface, Stored, free_holder, sweep};
use std::alloc::Global;
use vd_status::Refusal;

impl Core {
    /// Makes an output surface of this format and these sides in pixels, which are rounded up to whole macroblocks
    /// (VdpOutputSurfaceCreate). Its bytes are 0. Refused are, in this order: a format other than `B8G8R8A8` and
    /// `R8G8B8A8`, sides that are out of range, and no room for a further object.
    pub fn output_create(
        &mut self,
        alloc: Global,
        device: u32,
        format: u32,
        width: u32,
        height: u32,
    ) -> CoreAnswer<u32>
        ensures { Calls self.old self.new (Call.OutputCreate device format width height) Answer.Name result }
    {
        CoreAnswer::Now(self.make_output(alloc, device, format, width, height))
    }

    fn make_output(
        &mut self,
        alloc: Global,
        device: u32,
        format: u32,
        width: u32,
        height: u32,
    ) -> Result<u32, Refusal>
        ensures { Calls self.old self.new (Call.OutputCreate device format width height) Answer.Name (CoreAnswer.Now result) }
    {
        let on = self.on_device(device)?;
        if !is_rgba_format(format) {
            return Err(Refusal::BadRgba);
        }
        let size = size_for(width, height)?;
        let Some(holder) = free_holder(self.objects.kept()) else {
            return Err(Refusal::HandlesFull {
                live: self.objects.live(),
                given: self.objects.made(),
            });
        };
        let Ok(pixels) = vec![in alloc; 0; pixel_bytes(size)] else {
            return Err(Refusal::OutOfMemory);
        };
        let surface = Content::Output(OutputSurface {
            format,
            size,
            pixels: Stored::Own(pixels),
            last_flip: None,
            holder,
        });
        self.add(OUTPUT_SURFACE, Some(on), surface)
    }

    /// Writes the pixels of an output surface to `out`, row by row, four bytes each
    /// (VdpOutputSurfaceGetBitsNative). A buffer of another length is refused. The call waits while a job writes
    /// the surface.
    pub fn output_get_bits(&mut self, surface: u32, out: &mut [u8]) -> CoreAnswer<()>
        ensures calls { Calls self.old self.new (Call.OutputGetBits surface (length out.old)) (λ _. Answer.Bytes out.new) result }
        ensures stays { UnlessDone result (out.new ≡ out.old) }
    {
        match self.output_bits(surface, out.len()) {
            Ok(index) => {
                if self.is_out(self.object(index).place) {
                    return CoreAnswer::Later;
                }
                out.copy_from_slice(self.output_at(index).pixels.get().as_slice());
                CoreAnswer::Now(Ok(()))
            }
            Err(refusal) => CoreAnswer::Now(Err(refusal)),
        }
    }

    /// Gives an output surface these pixels, row by row, four bytes each (VdpOutputSurfacePutBitsNative).
    /// Refusals and waiting are as for `output_get_bits`.
    pub fn output_put_bits(&mut self, alloc: Global, surface: u32, bytes: &[u8]) -> CoreAnswer<()>
        ensures { Calls self.old self.new (Call.OutputPutBits surface bytes.now) (λ _. Answer.Done) result }
    {
        match self.output_bits(surface, bytes.len()) {
            Ok(index) => {
                if self.is_out(self.object(index).place) {
                    return CoreAnswer::Later;
                }
                let Ok(pixels) = bytes.to_vec(alloc) else {
                    return CoreAnswer::Now(Err(Refusal::OutOfMemory));
                };
                let surface = self.output_at(index);
                let surface = OutputSurface {
                    format: surface.format,
                    size: surface.size,
                    pixels: Stored::Own(pixels),
                    last_flip: surface.last_flip,
                    holder: surface.holder,
                };
                self.write(index, Content::Output(surface));
                CoreAnswer::Now(Ok(()))
            }
            Err(refusal) => CoreAnswer::Now(Err(refusal)),
        }
    }

    /// Destroys an output surface: its name is dead from now on (VdpOutputSurfaceDestroy). Its pixels stay while a
    /// queue shows it or has an entry of it.
    pub fn output_destroy(&mut self, surface: u32) -> CoreAnswer<()>
        ensures { Calls self.old self.new (Call.OutputDestroy surface) (λ _. Answer.Done) result }
    {
        match self.output(0, surface) {
            Ok(index) => {
                self.objects.destroy(index);
                sweep(&mut self.objects, &self.queues);
                CoreAnswer::Now(Ok(()))
            }
            Err(refusal) => CoreAnswer::Now(Err(refusal)),
        }
    }

    // Which of the kept objects is the output surface that a handle names.
    pub(crate) fn output(&self, arg: u32, name: u32) -> Result<usize, Refusal>
        ensures live { IfOk result (IsLiveAt is_output (kept_of self.now.objects)) }
        ensures finds { IfOk result (FindsAt as_output OutputObject self.now arg name) }
        ensures refuses { IfErr result (Refuses as_output OutputObject self.now arg name) }
    {
        self.in_use(arg, OUTPUT_SURFACE, name)
    }

    // Which of the kept objects is the output surface whose pixels are so many bytes.
    fn output_bits(&self, surface: u32, count: usize) -> Result<usize, Refusal>
        ensures live { IfOk result (IsLiveAt is_output (kept_of self.now.objects)) }
        ensures finds { IfOk result (FindsAt as_output OutputObject self.now 0 surface) }
        ensures count { IfOk result (HasPixels (kept_of self.now.objects) count) }
        ensures refuses { IfErr result (λ refusal. (d : State) → Stands self.now d → output_bits d surface count ≡ Err refusal) }
    {
        let index = self.output(0, surface)?;
        if count != self.output_at(index).pixels.get().len() {
            return Err(Refusal::BadSize);
        }
        Ok(index)
    }

    // What an output surface has.
    pub(crate) fn output_at(&self, index: usize) -> &OutputSurface
        requires { IsLiveAt is_output (kept_of self.now.objects) index }
        ensures { HasContent (kept_of self.now.objects) index (Content.Output result.now) }
    {
        match self.content(index) {
            Content::Output(surface) => surface,
            _ => unreachable!(),
        }
    }
}
