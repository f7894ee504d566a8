// Renders (vdpau.h, VdpDecoderRender).
ghost use Rattle.std.specs.Prelude.{◌≡◌, ◌<◌, ◌^◌, ℕ, IfErr, IfOk, None, Some, length, option_map, slice_index_or};
ghost use Rattle.std.specs.Arc.{arc_value};
ghost use Rattle.cb_types.specs.AcceptedInfo.{IsAcceptedBySome};
ghost use Rattle.cb_types.specs.SizeMbs.{IsWithinLimits};
ghost use Rattle.driver_jobs.specs.Renders.{done_number, done_size, outcome_of, picture_of};
ghost use Rattle.driver_jobs.specs.Units.{HasUnits};
ghost use Rattle.recon.specs.References.{pictures_of};
ghost use Rattle.driver_objects.specs.Contents.{HasVideo};
ghost use Rattle.driver_objects.specs.Kept.{kept_of};
ghost use Rattle.driver_core.specs.Begun.{BeginRender};
ghost use Rattle.driver_core.specs.Ended.{EndRender};
ghost use Rattle.driver_core.specs.Given.{Settles};
ghost use Rattle.driver_core.specs.Owed.{OwesPicture};
ghost use Rattle.driver_core.specs.RenderStarts.{AreLent, HoldsRender, IsLent, StartRender, WantsMemory};
ghost use Rattle.driver_core.specs.Rendered.{AreVideos};
ghost use Rattle.driver_core.specs.Shared.{Shares};

use crate::answer::{CoreAnswer, CoreBegin};
use crate::driver::Core;
use cb_types::PictureInfo;
use decoder_render::{Outcome, Prepared};
use driver_jobs::{CoreRender, CoreRenderDone, count_units};
use driver_objects::jobs::answer_of;
use driver_objects::references::Rendering;
use recon::Refs;
use std::alloc::{AllocError, Global};
use std::sync::Arc;
use submission::Submission;
use vd_plane::Picture;
use vd_status::Refusal;

impl Core {
    /// Begins the decoding of a picture into a video surface (VdpDecoderRender). Refused are, after the handles
    /// and in this order: a target that is one of the references, surfaces that haven't the decoder's size, a
    /// field of the info that the decoder doesn't take, and bytes that have not as many units as the info says.
    /// The call waits while a job writes the target or a reference.
    pub fn begin_render(
        &mut self,
        alloc: Global,
        decoder: u32,
        target: u32,
        info: &PictureInfo,
        submission: Submission,
    ) -> CoreBegin<CoreRender>
        ensures { BeginRender self.old self.new decoder target info.now submission result }
    {
        let units = count_units(submission.bytes());
        self.begin_counted(alloc, decoder, target, info, submission, units)
    }

    /// The same, where the submission's units were counted before (`count_units`), so that a call that waits
    /// doesn't read its bytes again at each look.
    pub fn begin_counted(
        &mut self,
        alloc: Global,
        decoder: u32,
        target: u32,
        info: &PictureInfo,
        submission: Submission,
        units: u32,
    ) -> CoreBegin<CoreRender>
        requires { HasUnits submission units }
        ensures { BeginRender self.old self.new decoder target info.now submission result }
    {
        match self.start_render(alloc, decoder, target, info, submission.bytes(), units) {
            CoreAnswer::Now(Ok(job)) => CoreBegin::Job(job),
            CoreAnswer::Now(Err(refusal)) => CoreBegin::Refused {
                submission: Some(submission),
                refusal,
            },
            CoreAnswer::Later => CoreBegin::Later(Some(submission)),
        }
    }

    // Looks at what was asked, in order, and only then begins the job, for which memory is taken.
    fn start_render(
        &mut self,
        alloc: Global,
        decoder: u32,
        target: u32,
        info: &PictureInfo,
        bytes: &[u8],
        units: u32,
    ) -> CoreAnswer<CoreRender>
        requires few { length bytes.now < 2 ^ 32 }
        requires units { HasUnits bytes.now units }
        ensures { StartRender self.old self.new decoder target info.now bytes.now result }
    {
        let on = match self.may_render(decoder, target, info) {
            Ok(on) => on,
            Err(refusal) => return CoreAnswer::Now(Err(refusal)),
        };
        if units != info.slice_count {
            return CoreAnswer::Now(Err(Refusal::SliceCount { found: units }));
        }
        if self.some_written(&on) {
            return CoreAnswer::Later;
        }
        CoreAnswer::Now(self.render_job(alloc, &on, info, bytes))
    }

    // Takes all memory that a render needs, and begins it.
    fn render_job(
        &mut self,
        alloc: Global,
        on: &Rendering,
        info: &PictureInfo,
        bytes: &[u8],
    ) -> Result<CoreRender, Refusal>
        requires videos { AreVideos (kept_of self.old.objects) on.now }
        requires accepted { IsAcceptedBySome info.now }
        requires size { IsWithinLimits on.now.decoder.size }
        requires few { length bytes.now < 2 ^ 32 }
        ensures ok { IfOk result (HoldsRender self.old self.new on.now info.now bytes.now) }
        ensures err { IfErr result (WantsMemory self.old self.new) }
    {
        let Ok(prepared) = Prepared::new(alloc, on.decoder.size, bytes) else {
            return Err(Refusal::OutOfMemory);
        };
        if self.reserve_job().is_err() {
            return Err(Refusal::OutOfMemory);
        }
        let Ok(refs) = self.share_references(alloc, &on.references) else {
            return Err(Refusal::OutOfMemory);
        };
        let number = self.note(on.target);
        Ok(CoreRender::new(number, *info, on.decoder.size, prepared, refs))
    }

    // Lends out the samples of each reference.
    fn share_references(
        &mut self,
        alloc: Global,
        slots: &[Option<usize>; 16],
    ) -> Result<Refs, AllocError>
        requires { (place index : ℕ) → place < 16 → slice_index_or slots.now place None ≡ Some index → HasVideo (kept_of self.old.objects) index }
        ensures shares { Shares self.old self.new }
        ensures lent { IfOk result (λ refs. AreLent (kept_of self.old.objects) slots.now (pictures_of refs)) }
        ensures count { IfOk result (λ refs. length refs.pictures ≡ 16) }
    {
        let mut pictures = [
            None, None, None, None, None, None, None, None, None, None, None, None, None, None,
            None, None,
        ];
        for place in 0..16 {
            pictures[place] = self.share_reference(alloc, slots[place])?;
        }
        Ok(Refs { pictures })
    }

    // Lends out the samples of a reference, if it has a surface.
    fn share_reference(
        &mut self,
        alloc: Global,
        slot: Option<usize>,
    ) -> Result<Option<Arc<Picture>>, AllocError>
        requires { (index : ℕ) → slot ≡ Some index → HasVideo (kept_of self.old.objects) index }
        ensures shares { Shares self.old self.new }
        ensures lent { IfOk result (λ held. IsLent (kept_of self.old.objects) slot (option_map arc_value held)) }
    {
        match slot {
            Some(index) => match self.share_samples(alloc, index) {
                Ok(samples) => Ok(Some(samples)),
                Err(fault) => Err(fault),
            },
            None => Ok(None),
        }
    }

    /// Ends a render that was begun on this driver and was run, and answers what the picture's units have come
    /// to: `Bitstream` names the first unit that isn't accepted, `Incomplete` says how many macroblocks aren't
    /// covered. Where all is well the target has the picture, if it is still there; else it keeps its samples.
    pub fn end_render(&mut self, done: CoreRenderDone) -> CoreAnswer<()>
        ensures { EndRender self.old self.new done result }
    {
        let number = done.number();
        let outcome = done.outcome();
        self.hand_picture(done);
        self.forget_job(number);
        CoreAnswer::Now(answer_of(outcome))
    }

    // Where all is well, gives the picture to the surface that the job writes, if that is still there.
    fn hand_picture(&mut self, done: CoreRenderDone)
        ensures { Settles self.old self.new (done_number done) (λ d note. (note.outcome ≡ outcome_of done) × OwesPicture d note (done_size done) (picture_of done)) }
    {
        let Outcome::Ok = done.outcome() else {
            return;
        };
        if let Some(index) = self.target_of(done.number()) {
            let size = done.size();
            self.give_picture(index, size, done.picture());
        }
    }
}
