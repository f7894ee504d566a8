// Output surfaces (vdpau.h, VdpOutputSurface..).
ghost use Rattle.std.specs.Prelude.{◌≡◌, ℕ, List, Some, IsSome, length, IfSome, OnOk, OnErr, IfNone, ◌≤◌};
ghost use Rattle.driver_model.specs.Answers.{reply_with};
ghost use Rattle.driver_model.specs.Creates.{output_create};
ghost use Rattle.driver_model.specs.Objects.{as_output};
ghost use Rattle.driver_model.specs.States.{content_at};
ghost use Rattle.driver_model.specs.Steps.{Step};
ghost use Rattle.driver_model.specs.Surfaces.{output_bits};
ghost use Rattle.driver_model.specs.Waits.{Waits};
ghost use Rattle.driver_model.specs.declared.calls.Call.TheVariants as call;
ghost use Rattle.driver_model.specs.declared.replies.Answer.TheVariants.{Bytes, Done, Name};
ghost use Rattle.plain_driver.specs.Looks.{placed};
ghost use Rattle.plain_driver.specs.States.{output_of, state_of};

use crate::driver::Plain;
use crate::objects::{PlainContent, PlainOutput};
use crate::sizes::{pixel_bytes, refused_if, size_for};
use mixer::{B8G8R8A8, R8G8B8A8};
use std::alloc::Global;
use vd_status::Refusal;

impl Plain {
    /// Makes an output surface whose bytes are 0.
    pub fn output_create(
        &mut self,
        alloc: Global,
        device: u32,
        format: u32,
        width: u32,
        height: u32,
    ) -> Result<u32, Refusal>
        ensures { (caller : List ℕ) → Step (state_of self.old) caller (call.OutputCreate device format width height) (reply_with Name result) (state_of self.new) }
    {
        let place = self.room_for_output(device, format, width, height)?;
        let size = size_for(width, height)?;
        let Ok(bytes) = vec![in alloc; 0; pixel_bytes(size)] else {
            return Err(Refusal::OutOfMemory);
        };
        self.add(
            place,
            PlainContent::Output(PlainOutput {
                format,
                size,
                bytes,
                last_flip: None,
            }),
        )
    }

    fn room_for_output(
        &self,
        device: u32,
        format: u32,
        width: u32,
        height: u32,
    ) -> Result<usize, Refusal>
        ensures value { result ≡ output_create (state_of self.now) device format width height }
        ensures format { OnOk result (format ≤ R8G8B8A8) }
    {
        let place = self.device(device)?;
        refused_if(format != B8G8R8A8 && format != R8G8B8A8, Refusal::BadRgba)?;
        size_for(width, height)?;
        self.room(false)?;
        Ok(place)
    }

    /// Destroys an output surface. A queue that has it in line or shows it keeps it.
    pub fn output_destroy(&mut self, surface: u32) -> Result<(), Refusal>
        ensures { (caller : List ℕ) → Step (state_of self.old) caller (call.OutputDestroy surface) (reply_with (λ nothing. Done) result) (state_of self.new) }
    {
        let place = self.output(surface)?;
        self.destroy(place);
        Ok(())
    }

    /// Reads the pixels of an output surface. None: the call waits, while a job writes them.
    pub fn output_get_bits(&self, surface: u32, out: &mut [u8]) -> Option<Result<(), Refusal>>
        ensures step { IfSome result (λ reply. (caller : List ℕ) → Step (state_of self.now) caller (call.OutputGetBits surface (length out.old)) (reply_with (λ nothing. Bytes out.new) reply) (state_of self.now)) }
        ensures waits { IfNone result (Waits (state_of self.now) (call.OutputGetBits surface (length out.old))) }
        ensures err { IfSome result (λ reply. OnErr reply (out.new ≡ out.old)) }
        ensures later { IfNone result (out.new ≡ out.old) }
    {
        let place = match self.output_bits(surface, out.len()) {
            Ok(place) => place,
            Err(refusal) => return Some(Err(refusal)),
        };
        if self.is_out(place) {
            return None;
        }
        out.copy_from_slice(&self.output_in(place).bytes);
        Some(Ok(()))
    }

    /// Takes the pixels of an output surface from bytes. None: the call waits, while a job writes the surface.
    pub fn output_put_bits(
        &mut self,
        alloc: Global,
        surface: u32,
        bytes: &[u8],
    ) -> Option<Result<(), Refusal>>
        ensures step { IfSome result (λ reply. (caller : List ℕ) → Step (state_of self.old) caller (call.OutputPutBits surface bytes.now) (reply_with (λ nothing. Done) reply) (state_of self.new)) }
        ensures waits { IfNone result (Waits (state_of self.old) (call.OutputPutBits surface bytes.now)) }
        ensures later { IfNone result (state_of self.new ≡ state_of self.old) }
    {
        let place = match self.output_bits(surface, bytes.len()) {
            Ok(place) => place,
            Err(refusal) => return Some(Err(refusal)),
        };
        if self.is_out(place) {
            return None;
        }
        let Ok(bytes) = Vec::from_slice(alloc, bytes) else {
            return Some(Err(Refusal::OutOfMemory));
        };
        let output = self.output_in(place);
        let content = PlainContent::Output(PlainOutput {
            format: output.format,
            size: output.size,
            bytes,
            last_flip: output.last_flip,
        });
        self.put(place, content);
        Some(Ok(()))
    }

    fn output_bits(&self, surface: u32, count: usize) -> Result<usize, Refusal>
        ensures { result ≡ placed (output_bits (state_of self.now) surface count) }
    {
        let place = self.output(surface)?;
        let size = self.output_in(place).size;
        refused_if(count != pixel_bytes(size), Refusal::BadSize)?;
        Ok(place)
    }

    // The output surface at a place.
    pub(crate) fn output_in(&self, place: usize) -> &PlainOutput
        requires { IsSome (content_at (state_of self.now) as_output place) }
        ensures { content_at (state_of self.now) as_output place ≡ Some (output_of result.now) }
    {
        match &self.objects[place].content {
            PlainContent::Output(output) => output,
            _ => unreachable!(),
        }
    }
}
