// The pictures of a decoder, in the surfaces of a driver.
ghost use Rattle.std.specs.Prelude.{◌≡◌, length};
ghost use Rattle.cb_types.specs.SizeMbs.{IsWithinLimits};
ghost use Rattle.driver_model.specs.Sizes.{sample_bytes};
ghost use Rattle.vd_status.specs.declared.refusal.Refusal.TheVariants.{OutOfMemory};

use crate::making::{make_decoder, make_surfaces};
use crate::renaming::renamed;
use bits_io::YV12;
use cb_types::{PictureInfo, SizeMbs};
use decoder_render::Outcome;
use driver_core::{Core, CoreAnswer, CoreBegin, CoreRenderDone, Submission};
use std::alloc::{AllocError, Global};
use std::sync::Arc;
use vd_plane::Picture;
use vd_status::Refusal;

/// As many numbers pictures have: those of sixteen references, and one more.
pub const NUMBERS: usize = 17;

/// A driver with one device, a decoder of Constrained Baseline with sixteen references, and a video surface for
/// each number.
#[derive(Drop)]
pub struct PictureBuffer {
    core: Core,
    decoder: u32,
    surfaces: [u32; NUMBERS],
    size: SizeMbs,
    // The memory by which samples are read back.
    bytes: Vec<u8>,
    ghost limits: { IsWithinLimits size },
    ghost filled: { length bytes.items ≡ sample_bytes size },
}

impl PictureBuffer {
    ghost use Rattle.std.specs.Prelude.{◌≡◌, ◌<◌, ℕ, List, All, Option, IfOk, OnErr};
    ghost use Rattle.std.specs.Arc.{arc_value};
    ghost use Rattle.bits_io.specs.ByteOrder.{bytes_of};
    ghost use Rattle.cb_types.specs.AcceptedInfo.{IsAccepted};
    ghost use Rattle.cb_types.specs.SizeMbs.{IsWithinLimits};
    ghost use Rattle.driver_jobs.specs.Renders.{outcome_of};
    ghost use Rattle.driver_core.specs.Ended.{EndRender};
    ghost use Rattle.driver_core.specs.declared.answer.CoreAnswer.{CoreAnswer};
    ghost use Rattle.vd_plane.specs.declared.picture.Picture.{Picture};
    ghost use Rattle.picture_buffer.specs.Buffers.{AreZeros, Decodes, HasUnits, SameSurfaces, StandsFor, size_of};
    ghost use Rattle.picture_buffer.specs.Renaming.{IsOther};

    /// A buffer for pictures of this size. All samples are 0.
    pub fn new(alloc: Global, size: SizeMbs) -> Result<PictureBuffer, AllocError>
        requires { IsWithinLimits size }
        ensures size { IfOk result (λ buffer. size_of buffer ≡ size) }
        ensures stands { IfOk result (λ buffer. (pictures : ℕ → Picture) × StandsFor buffer pictures × AreZeros size pictures) }
    {
        let mut core = Core::new(alloc)?;
        let (device, decoder) = make_decoder(&mut core, alloc, size)?;
        let surfaces = make_surfaces(&mut core, alloc, device, size)?;
        let count = 16 * size.width as usize * (16 * size.height as usize) * 3 / 2;
        Ok(PictureBuffer {
            core,
            decoder,
            surfaces,
            size,
            bytes: vec![in alloc; 0; count]?,
        })
    }

    /// The size of the pictures in macroblocks.
    pub fn size(&self) -> SizeMbs
        ensures { result ≡ size_of self.now }
    {
        self.size
    }

    /// Decodes a picture from its slice units, whose references are named by their numbers, and answers what the
    /// units come to. Where they come to the whole picture, it is the one of this number from now on. Where there
    /// is no memory nothing changes.
    pub fn decode(
        &mut self,
        alloc: Global,
        number: u32,
        info: &PictureInfo,
        submission: Submission,
    ) -> Result<Outcome, AllocError>
        requires stands { (pictures : ℕ → Picture) × StandsFor self.old pictures }
        requires number { number < 17 }
        requires info { IsAccepted 0 16 info.now }
        requires references { All (IsOther number) info.now.references }
        requires units { HasUnits submission info.now }
        ensures decodes { IfOk result (λ outcome. (pictures : ℕ → Picture) → StandsFor self.old pictures → Decodes self.new pictures (size_of self.old) number info.now submission outcome) }
        ensures untouched { OnErr result ((pictures : ℕ → Picture) → StandsFor self.old pictures → StandsFor self.new pictures) }
        ensures size { size_of self.new ≡ size_of self.old }
    {
        let info = renamed(&self.surfaces, info);
        let target = self.surfaces[number as usize];
        match self
            .core
            .begin_render(alloc, self.decoder, target, &info, submission)
        {
            CoreBegin::Job(job) => Ok(self.end(job.run())),
            CoreBegin::Refused { refusal, .. } => Err(wanted(refusal)),
            CoreBegin::Later(_) => unreachable!(),
        }
    }

    // Ends what was begun on the driver.
    fn end(&mut self, done: CoreRenderDone) -> Outcome
        ensures outcome { result ≡ outcome_of done }
        ensures ends { (answer : CoreAnswer (Unit {0})) × EndRender self.old.core self.new.core done answer }
        ensures others { SameSurfaces self.old self.new }
    {
        let outcome = done.outcome();
        self.core.end_render(done);
        outcome
    }

    /// The picture of this number. Where there is no memory nothing changes.
    pub fn samples(&mut self, alloc: Global, number: u32) -> Result<Arc<Picture>, AllocError>
        requires stands { (pictures : ℕ → Picture) × StandsFor self.old pictures }
        requires number { number < 17 }
        ensures samples { IfOk result (λ samples. (pictures : ℕ → Picture) → StandsFor self.old pictures → arc_value samples ≡ pictures number) }
        ensures stays { (pictures : ℕ → Picture) → StandsFor self.old pictures → StandsFor self.new pictures }
        ensures size { size_of self.new ≡ size_of self.old }
    {
        self.read(number);
        let mut picture = Picture::of_size(alloc, self.size)?;
        bits_io::put(&mut picture, YV12, self.bytes.as_slice());
        Ok(Arc::new(alloc, picture)?)
    }

    // Reads the samples of the picture of this number.
    fn read(&mut self, number: u32)
        requires stands { (pictures : ℕ → Picture) × StandsFor self.old pictures }
        requires number { number < 17 }
        ensures bytes { (pictures : ℕ → Picture) → StandsFor self.old pictures → self.new.bytes.items ≡ bytes_of 1 (pictures number) }
        ensures stays { (pictures : ℕ → Picture) → StandsFor self.old pictures → StandsFor self.new pictures }
        ensures size { size_of self.new ≡ size_of self.old }
    {
        let surface = self.surfaces[number as usize];
        match self.core.video_get_bits(surface, YV12, &mut self.bytes) {
            CoreAnswer::Now(Ok(())) => {}
            CoreAnswer::Now(Err(_)) => unreachable!(),
            CoreAnswer::Later => unreachable!(),
        }
    }
}

// What a refusal for want of memory comes to.
fn wanted(refusal: Refusal) -> AllocError
    requires { refusal ≡ OutOfMemory }
{
    match refusal {
        Refusal::OutOfMemory => AllocError,
        _ => unreachable!(),
    }
}
