// Mixes (vdpau.h, VdpVideoMixerRender).
ghost use Rattle.std.specs.Prelude.{◌≡◌, ℕ, ◌&&◌, ◌||◌, IfErr, IfOk};
ghost use Rattle.decoder_render.specs.declared.outcome.Outcome.TheVariants as Outcome;
ghost use Rattle.driver_jobs.specs.Mixes.{done_number, done_size, pixels_of};
ghost use Rattle.driver_model.specs.Sizes.{is_same_size};
ghost use Rattle.driver_model.specs.States.{State, is_out};
ghost use Rattle.driver_objects.specs.Kept.{kept_of};
ghost use Rattle.driver_core.specs.Begun.{BeginMix};
ghost use Rattle.driver_core.specs.Ended.{EndMix};
ghost use Rattle.driver_core.specs.Given.{Settles};
ghost use Rattle.driver_core.specs.MixStarts.{AreLive, AreNamed, AreOneSize, FindsMix, HoldsMix, OfPlaces, OfSizes, RefusesMix, StartMix, WantsMemory};
ghost use Rattle.driver_core.specs.Owed.{OwesPixels};
ghost use Rattle.driver_core.specs.Stands.{Stands};

use crate::answer::{CoreAnswer, CoreBegin};
use crate::driver::Core;
use driver_jobs::{CoreMix, CoreMixDone};
use driver_model::{FRAME, OUTPUT_SURFACE, VIDEO_SURFACE};
use driver_objects::arguments::{is_same_size, pixel_bytes};
use std::alloc::Global;
use vd_status::Refusal;

// Which of the kept objects a mixer and its surfaces are.
#[derive(Clone, Copy)]
struct Mixing {
    mixer: usize,
    video: usize,
    output: usize,
}

impl Core {
    /// Begins the mixing of a video surface into an output surface by a mixer's matrix
    /// (VdpVideoMixerRender). Refused are, after the handles and in this order: a picture structure other than
    /// `FRAME`, and a mixer and surfaces that are not of one size. The call waits while a job writes one of the
    /// surfaces.
    pub fn begin_mix(
        &mut self,
        alloc: Global,
        mixer: u32,
        structure: u32,
        video: u32,
        output: u32,
    ) -> CoreBegin<CoreMix>
        ensures { BeginMix self.old self.new mixer structure video output result }
    {
        match self.start_mix(alloc, mixer, structure, video, output) {
            CoreAnswer::Now(Ok(job)) => CoreBegin::Job(job),
            CoreAnswer::Now(Err(refusal)) => CoreBegin::Refused {
                submission: None,
                refusal,
            },
            CoreAnswer::Later => CoreBegin::Later(None),
        }
    }

    // Looks at what was asked, in order, and begins the job.
    fn start_mix(
        &mut self,
        alloc: Global,
        mixer: u32,
        structure: u32,
        video: u32,
        output: u32,
    ) -> CoreAnswer<CoreMix>
        ensures { StartMix self.old self.new mixer structure video output result }
    {
        match self.mixing(mixer, structure, video, output) {
            Ok(at) => {
                if self.is_mix_held(at) {
                    return CoreAnswer::Later;
                }
                CoreAnswer::Now(self.mix_job(alloc, at))
            }
            Err(refusal) => CoreAnswer::Now(Err(refusal)),
        }
    }

    // What a mix finds.
    fn mixing(&self, mixer: u32, structure: u32, video: u32, output: u32) -> Result<Mixing, Refusal>
        ensures live { IfOk result (AreLive (kept_of self.now.objects)) }
        ensures size { IfOk result (AreOneSize (kept_of self.now.objects)) }
        ensures finds { IfOk result (FindsMix self.now mixer structure video output) }
        ensures refuses { IfErr result (RefusesMix self.now mixer structure video output) }
    {
        let at = self.mix_handles(mixer, video, output)?;
        if structure != FRAME {
            return Err(Refusal::BadStructure);
        }
        if !self.is_one_size(at) {
            return Err(Refusal::BadSize);
        }
        Ok(at)
    }

    // What the handles of a mix name.
    fn mix_handles(&self, mixer: u32, video: u32, output: u32) -> Result<Mixing, Refusal>
        ensures live { IfOk result (AreLive (kept_of self.now.objects)) }
        ensures named { IfOk result (AreNamed self.now mixer video output) }
        ensures refuses { IfErr result (λ refusal. (structure : ℕ) → RefusesMix self.now mixer structure video output refusal) }
    {
        let of = self.mixer(0, mixer)?;
        let device = self.object(of).device;
        let from = self.further(1, VIDEO_SURFACE, video, device)?;
        let onto = self.further(2, OUTPUT_SURFACE, output, device)?;
        Ok(Mixing {
            mixer: of,
            video: from,
            output: onto,
        })
    }

    // Whether the mixer and the surfaces have one size.
    fn is_one_size(&self, at: Mixing) -> bool
        requires { AreLive (kept_of self.now.objects) at }
        ensures { OfSizes (kept_of self.now.objects) at (λ mixer video output. result ≡ (is_same_size mixer video && is_same_size mixer output)) }
    {
        let size = self.mixer_at(at.mixer).size;
        is_same_size(size, self.video_at(at.video).size)
            && is_same_size(size, self.output_at(at.output).size)
    }

    // Whether a job writes one of the surfaces.
    fn is_mix_held(&self, at: Mixing) -> bool
        requires { AreLive (kept_of self.now.objects) at }
        ensures { (d : State) → Stands self.now d → OfPlaces (kept_of self.now.objects) at (λ video output. result ≡ (is_out d video || is_out d output)) }
    {
        self.is_out(self.object(at.video).place) || self.is_out(self.object(at.output).place)
    }

    // Takes all memory that a mix needs, and begins it.
    fn mix_job(&mut self, alloc: Global, at: Mixing) -> Result<CoreMix, Refusal>
        requires live { AreLive (kept_of self.old.objects) at }
        requires size { AreOneSize (kept_of self.old.objects) at }
        ensures ok { IfOk result (HoldsMix self.old self.new at) }
        ensures err { IfErr result (WantsMemory self.old self.new) }
    {
        let matrix = self.mixer_at(at.mixer).matrix;
        let output = self.output_at(at.output);
        let size = output.size;
        let format = output.format;
        let Ok(pixels) = vec![in alloc; 0; pixel_bytes(size)] else {
            return Err(Refusal::OutOfMemory);
        };
        if self.reserve_job().is_err() {
            return Err(Refusal::OutOfMemory);
        }
        let Ok(picture) = self.share_samples(alloc, at.video) else {
            return Err(Refusal::OutOfMemory);
        };
        let number = self.note(at.output);
        Ok(CoreMix::new(number, size, picture, matrix, format, pixels))
    }

    /// Ends a mix that was begun on this driver and was run. The output surface has the pixels, if it is still
    /// there.
    pub fn end_mix(&mut self, done: CoreMixDone) -> CoreAnswer<()>
        ensures { EndMix self.old self.new done result }
    {
        let number = done.number();
        self.hand_pixels(done);
        self.forget_job(number);
        CoreAnswer::Now(Ok(()))
    }

    // Gives the pixels to the surface that the job writes, if that is still there.
    fn hand_pixels(&mut self, done: CoreMixDone)
        ensures { Settles self.old self.new (done_number done) (λ d note. (note.outcome ≡ Outcome.Ok) × OwesPixels d note (done_size done) (pixels_of done)) }
    {
        if let Some(index) = self.target_of(done.number()) {
            let size = done.size();
            self.give_pixels(index, size, done.pixels());
        }
    }
}
