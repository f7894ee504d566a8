// What a render looks at (vdpau.h, VdpDecoderRender): a decoder, a target, and the surfaces of the references.
ghost use Rattle.std.specs.Prelude.{◌≡◌, ◌==◌, ℕ, IfOk, IfErr, IsSome, length, true, false};
ghost use Rattle.cb_types.specs.AcceptedInfo.{IsAccepted};
ghost use Rattle.cb_types.specs.References.{is_absent, is_unused};
ghost use Rattle.cb_types.specs.SizeMbs.{IsWithinLimits};
ghost use Rattle.driver_model.specs.Renders.{render, rendering};
ghost use Rattle.driver_model.specs.Sizes.{is_same_size};
ghost use Rattle.driver_objects.specs.Contents.{HasVideo};
ghost use Rattle.driver_objects.specs.Kept.{kept_of};
ghost use Rattle.driver_objects.specs.References.{is_other_size_at, is_other_size_in, is_written_at, some_other_size, some_slot, some_written};
ghost use Rattle.driver_core.specs.Rendered.{AreVideos, RefusesEntries, RefusesEntry, RefusesLook, RefusesSurface, Sees, SeesEntries, SeesEntry, SeesSurface};

use crate::driver::Core;
use cb_types::{PictureInfo, Reference, first_refused_field};
use driver_model::VIDEO_SURFACE;
use driver_objects::references::{Rendering, is_reference, some_other_size, some_written};
use vd_status::Refusal;

impl Core {
    // What a render finds that isn't refused, up to the bytes.
    pub(crate) fn may_render(
        &self,
        decoder: u32,
        target: u32,
        info: &PictureInfo,
    ) -> Result<Rendering, Refusal>
        ensures sees { IfOk result (Sees self.now (λ d. render d decoder target info.now)) }
        ensures videos { IfOk result (AreVideos (kept_of self.now.objects)) }
        ensures within { IfOk result (λ on. IsWithinLimits on.decoder.size) }
        ensures accepted { IfOk result (λ on. IsAccepted on.decoder.profile on.decoder.max_references info.now) }
        ensures refuses { IfErr result (RefusesLook self.now (λ d. render d decoder target info.now)) }
    {
        let on = match self.rendering(decoder, target, &info.references) {
            Ok(on) => on,
            Err(refusal) => return Err(refusal),
        };
        if is_reference(&on.references, on.target) {
            return Err(Refusal::TargetIsReference);
        }
        if some_other_size(self.objects.kept(), &on, on.decoder.size) {
            return Err(Refusal::BadSize);
        }
        match first_refused_field(on.decoder.profile, on.decoder.max_references, info) {
            None => Ok(on),
            Some(field) => Err(Refusal::BadInfo { field }),
        }
    }

    // The surfaces that a render's handles name, whatever they are like.
    fn rendering(
        &self,
        decoder: u32,
        target: u32,
        entries: &[Reference; 16],
    ) -> Result<Rendering, Refusal>
        ensures sees { IfOk result (Sees self.now (λ d. rendering d decoder target entries.now)) }
        ensures videos { IfOk result (AreVideos (kept_of self.now.objects)) }
        ensures within { IfOk result (λ on. IsWithinLimits on.decoder.size) }
        ensures refuses { IfErr result (RefusesLook self.now (λ d. rendering d decoder target entries.now)) }
    {
        let index = self.decoder(0, decoder)?;
        let decoder = self.decoder_at(index);
        let device = self.object(index).device;
        let target = self.surface(1, target, device)?;
        let references = self.references(device, entries)?;
        Ok(Rendering {
            decoder,
            target,
            references,
        })
    }

    // The surfaces of the entries.
    fn references(
        &self,
        device: u64,
        entries: &[Reference; 16],
    ) -> Result<[Option<usize>; 16], Refusal>
        ensures count { IfOk result (λ found. length found ≡ 16) }
        ensures sees { IfOk result (SeesEntries self.now device entries.now 16) }
        ensures refuses { IfErr result (RefusesEntries self.now device entries.now) }
    {
        let mut found = [None; 16];
        for (place, entry) in entries.iter().enumerate() {
            let one = self.reference(2 + place as u32, device, *entry)?;
            found[place] = one;
        }
        Ok(found)
    }

    // The surface of an entry, if it needs one.
    fn reference(&self, arg: u32, device: u64, entry: Reference) -> Result<Option<usize>, Refusal>
        ensures sees { IfOk result (SeesEntry self.now device arg entry) }
        ensures refuses { IfErr result (RefusesEntry self.now device arg entry) }
    {
        if entry.is_unused() || entry.is_absent() {
            return Ok(None);
        }
        match self.surface(arg, entry.surface, device) {
            Ok(index) => Ok(Some(index)),
            Err(refusal) => Err(refusal),
        }
    }

    // Which of the kept objects is the video surface that a further handle names, on the device with this place
    // among all objects ever made.
    fn surface(&self, arg: u32, name: u32, device: u64) -> Result<usize, Refusal>
        ensures video { IfOk result (HasVideo (kept_of self.now.objects)) }
        ensures sees { IfOk result (SeesSurface self.now arg name device) }
        ensures refuses { IfErr result (RefusesSurface self.now arg name device) }
    {
        self.further(arg, VIDEO_SURFACE, name, device)
    }

    // Whether a job writes the target or a reference.
    pub(crate) fn some_written(&self, on: &Rendering) -> bool
        ensures { result ≡ some_written (kept_of self.now.objects) self.now.jobs.items on.now }
    {
        some_written(self.objects.kept(), &self.jobs, on)
    }
}
