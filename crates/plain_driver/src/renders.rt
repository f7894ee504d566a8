// The decoding of a picture into a video surface (vdpau.h, VdpDecoderRender), but for the decoding: what it comes to
// is handed in.
ghost use Rattle.std.specs.Prelude.{◌≡◌, ◌==◌, ◌<◌, ◌||◌, ℕ, List, Option, Some, IsSome, IfSome, IfNone, IsTrue, length, not, false, true};
ghost use Rattle.cb_types.specs.SizeMbs.{IsWithinLimits};
ghost use Rattle.decoder_render.specs.Submission.{ArePayloads};
ghost use Rattle.driver_model.specs.Answers.{reply_with};
ghost use Rattle.driver_model.specs.Jobs.{reply_of};
ghost use Rattle.driver_model.specs.Objects.{as_decoder, as_video};
ghost use Rattle.driver_model.specs.Renders.{info_taken, reference, references, render, rendering, units_counted};
ghost use Rattle.driver_model.specs.Sizes.{is_same_size};
ghost use Rattle.driver_model.specs.States.{content_at, is_out};
ghost use Rattle.driver_model.specs.Steps.{Step};
ghost use Rattle.driver_model.specs.Waits.{Waits};
ghost use Rattle.driver_model.specs.declared.calls.Call.TheVariants as call;
ghost use Rattle.driver_model.specs.declared.replies.Answer.TheVariants.{Done};
ghost use Rattle.plain_driver.specs.Rendering.{IsHandedIn, all_placed, decoded_at, is_other_size_at, is_other_size_in, one_placed, render_placed, some_place};
ghost use Rattle.plain_driver.specs.States.{content_of, decoder_of, state_of};
ghost use Rattle.vd_plane.specs.Picture.{HasSize};

use crate::driver::Plain;
use crate::mixes::is_same_size;
use crate::objects::{PlainContent, PlainDecoder, PlainVideo};
use crate::sizes::refused_if;
use cb_types::{PictureInfo, Reference, SizeMbs, first_refused_field};
use decoder_render::Outcome;
use std::alloc::Global;
use vd_plane::Picture;
use vd_status::Refusal;

/// A decoder, a target and the references of a render, by their places.
#[derive(Clone, Copy)]
pub struct RenderPlaces {
    pub decoder: usize,
    pub target: usize,
    pub references: [Option<usize>; 16],
}

impl Plain {
    /// Decodes a picture of so many units, whose outcome and samples are these, into a video surface, and notes
    /// the job. None: the call waits, while a job writes the surface or a reference. A picture of another size
    /// than the target's is refused, since the units don't come to it.
    pub fn render(
        &mut self,
        alloc: Global,
        caller: &[u64],
        decoder: u32,
        target: u32,
        info: &PictureInfo,
        units: u32,
        outcome: Outcome,
        picture: Picture,
    ) -> Option<Result<(), Refusal>>
        ensures step { IfSome result (λ reply. (bytes : List ℕ) (payloads : List (Option (List ℕ))) → ArePayloads bytes payloads → length payloads ≡ units → IsHandedIn (state_of self.old) decoder target info.now payloads outcome picture →
            Step (state_of self.old) caller.now (call.Render decoder target info.now bytes) (reply_with (λ nothing. Done) reply) (state_of self.new)) }
        ensures waits { IfNone result ((bytes : List ℕ) (payloads : List (Option (List ℕ))) → ArePayloads bytes payloads → length payloads ≡ units → Waits (state_of self.old) (call.Render decoder target info.now bytes)) }
        ensures later { IfNone result (state_of self.new ≡ state_of self.old) }
    {
        let on = match self.may_render(decoder, target, info) {
            Ok(on) => on,
            Err(refusal) => return Some(Err(refusal)),
        };
        if let Err(refusal) = count_units(info, units) {
            return Some(Err(refusal));
        }
        if self.is_render_held(&on) {
            return None;
        }
        let size = self.video_in(on.target).size;
        if !fits(outcome, &picture, size) {
            return Some(Err(Refusal::BadSize));
        }
        if self.note(alloc, caller, on.target, outcome).is_err() {
            return Some(Err(Refusal::OutOfMemory));
        }
        self.decode_into(on.target, size, outcome, picture);
        Some(answer_of(outcome))
    }

    fn may_render(
        &self,
        decoder: u32,
        target: u32,
        info: &PictureInfo,
    ) -> Result<RenderPlaces, Refusal>
        ensures { result ≡ render_placed (render (state_of self.now) decoder target info.now) }
    {
        let on = self.rendering(decoder, target, &info.references)?;
        refused_if(
            some_is(&on.references, on.target),
            Refusal::TargetIsReference,
        )?;
        let decoder = self.decoder_in(on.decoder);
        refused_if(self.is_of_other_size(&on, decoder.size), Refusal::BadSize)?;
        info_taken(decoder, info)?;
        Ok(on)
    }

    fn rendering(
        &self,
        decoder: u32,
        target: u32,
        entries: &[Reference; 16],
    ) -> Result<RenderPlaces, Refusal>
        ensures { result ≡ render_placed (rendering (state_of self.now) decoder target entries.now) }
    {
        let decoder = self.decoder(decoder)?;
        let device = self.device_at(decoder);
        let target = self.further_video(1, device, target)?;
        let references = self.references(device, entries)?;
        Ok(RenderPlaces {
            decoder,
            target,
            references,
        })
    }

    // The surfaces of the entries.
    fn references(
        &self,
        device: usize,
        entries: &[Reference; 16],
    ) -> Result<[Option<usize>; 16], Refusal>
        ensures { result ≡ all_placed (references (state_of self.now) device 2 entries.now) }
    {
        let mut found = [None; 16];
        for (place, entry) in entries.iter().enumerate() {
            let one = self.reference(2 + place as u32, device, *entry)?;
            found[place] = one;
        }
        Ok(found)
    }

    fn reference(&self, arg: u32, device: usize, entry: Reference) -> Result<Option<usize>, Refusal>
        ensures { result ≡ one_placed (reference (state_of self.now) device arg entry) }
    {
        if entry.is_unused() || entry.is_absent() {
            return Ok(None);
        }
        let place = self.further_video(arg, device, entry.surface)?;
        Ok(Some(place))
    }

    // Whether the target or a reference hasn't this size.
    fn is_of_other_size(&self, on: &RenderPlaces, size: SizeMbs) -> bool
        ensures { result ≡ (is_other_size_at (state_of self.now) size on.now.target || some_place (is_other_size_at (state_of self.now) size) on.now.references) }
    {
        self.is_other_size_at(size, on.target) || self.some_is_other_size(size, &on.references)
    }

    fn is_other_size_at(&self, size: SizeMbs, place: usize) -> bool
        ensures { result ≡ is_other_size_at (state_of self.now) size place }
    {
        match self.objects.get(place) {
            Some(object) => is_other_size(&object.content, size),
            None => false,
        }
    }

    fn some_is_other_size(&self, size: SizeMbs, references: &[Option<usize>]) -> bool
        ensures { result ≡ some_place (is_other_size_at (state_of self.now) size) references.now }
    {
        references.iter().any(|place| match place {
            Some(place) => self.is_other_size_at(size, *place),
            None => false,
        })
    }

    fn is_render_held(&self, on: &RenderPlaces) -> bool
        ensures { result ≡ (is_out (state_of self.now) on.now.target || some_place (is_out (state_of self.now)) on.now.references) }
    {
        self.is_out(on.target) || self.some_is_out(&on.references)
    }

    fn some_is_out(&self, references: &[Option<usize>]) -> bool
        ensures { result ≡ some_place (is_out (state_of self.now)) references.now }
    {
        references.iter().any(|place| match place {
            Some(place) => self.is_out(*place),
            None => false,
        })
    }

    // Where all is well the surface at a place has the picture from now on.
    fn decode_into(&mut self, place: usize, size: SizeMbs, outcome: Outcome, picture: Picture)
        requires place { place < length self.old.objects.items }
        requires within { IsWithinLimits size }
        requires sides { outcome ≡ Outcome.Ok → HasSize picture size }
        ensures { state_of self.new ≡ decoded_at (state_of self.old) place size picture outcome }
    {
        if let Outcome::Ok = outcome {
            self.put(place, PlainContent::Video(PlainVideo { size, picture }));
        }
    }

    // The decoder at a place.
    fn decoder_in(&self, place: usize) -> PlainDecoder
        requires { IsSome (content_at (state_of self.now) as_decoder place) }
        ensures { content_at (state_of self.now) as_decoder place ≡ Some (decoder_of result) }
    {
        match &self.objects[place].content {
            PlainContent::Decoder(decoder) => *decoder,
            _ => unreachable!(),
        }
    }
}

// Whether a reference stands at this place.
fn some_is(references: &[Option<usize>], target: usize) -> bool
    ensures { result ≡ some_place (λ place. place == target) references.now }
{
    references.iter().any(|place| match place {
        Some(place) => *place == target,
        None => false,
    })
}

fn is_other_size(content: &PlainContent, size: SizeMbs) -> bool
    ensures { result ≡ is_other_size_in size (content_of content.now) }
{
    match content {
        PlainContent::Video(video) => !is_same_size(video.size, size),
        _ => false,
    }
}

// Refuses where the decoder doesn't take the info.
fn info_taken(decoder: PlainDecoder, info: &PictureInfo) -> Result<(), Refusal>
    ensures { result ≡ info_taken (decoder_of decoder) info.now }
{
    match first_refused_field(decoder.profile, decoder.max_references, info) {
        None => Ok(()),
        Some(field) => Err(Refusal::BadInfo { field }),
    }
}

fn count_units(info: &PictureInfo, units: u32) -> Result<(), Refusal>
    ensures { result ≡ units_counted info.now units }
{
    refused_if(
        units != info.slice_count,
        Refusal::SliceCount { found: units },
    )
}

// Whether the picture, if there is one, has this size.
fn fits(outcome: Outcome, picture: &Picture, size: SizeMbs) -> bool
    requires { IsWithinLimits size }
    ensures yes { IsTrue result → outcome ≡ Outcome.Ok → HasSize picture.now size }
    ensures only { result ≡ false → outcome ≡ Outcome.Ok }
    ensures otherwise { result ≡ false → HasSize picture.now size → ⊥ }
{
    match outcome {
        Outcome::Ok => has_size(picture, size),
        _ => true,
    }
}

fn has_size(picture: &Picture, size: SizeMbs) -> bool
    requires { IsWithinLimits size }
    ensures yes { IsTrue result → HasSize picture.now size }
    ensures otherwise { result ≡ false → HasSize picture.now size → ⊥ }
{
    picture.y.width() == size.luma_width() && picture.y.height() == size.luma_height()
}

// What the end of a job with this outcome answers.
fn answer_of(outcome: Outcome) -> Result<(), Refusal>
    ensures { reply_with (λ nothing. Done) result ≡ reply_of outcome }
{
    match outcome {
        Outcome::Ok => Ok(()),
        Outcome::Bitstream { slice } => Err(Refusal::Bitstream { slice }),
        Outcome::Incomplete { macroblocks } => Err(Refusal::Incomplete { macroblocks }),
    }
}
