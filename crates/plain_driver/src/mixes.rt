// The mixing of a video surface into an output surface (vdpau.h, VdpVideoMixerRender).
ghost use Rattle.std.specs.Prelude.{◌≡◌, Some, IsSome, IfOk, IfSome, IfNone, ◌||◌};
ghost use Rattle.driver_model.specs.Answers.{reply_with};
ghost use Rattle.driver_model.specs.Mixes.{mix};
ghost use Rattle.driver_model.specs.Objects.{OutputSurface, VideoSurface, as_mixer, as_output, as_video};
ghost use Rattle.driver_model.specs.Sizes.{is_same_size};
ghost use Rattle.driver_model.specs.States.{content_at, is_out};
ghost use Rattle.driver_model.specs.Steps.{Step};
ghost use Rattle.driver_model.specs.Waits.{Waits};
ghost use Rattle.driver_model.specs.declared.calls.Call.TheVariants as call;
ghost use Rattle.driver_model.specs.declared.replies.Answer.TheVariants.{Done};
ghost use Rattle.plain_driver.specs.Mixing.{IsMixOf, fit_together, mix_placed};
ghost use Rattle.plain_driver.specs.States.{state_of};

use crate::driver::Plain;
use crate::objects::{PlainContent, PlainOutput};
use crate::sizes::refused_if;
use cb_types::SizeMbs;
use decoder_render::Outcome;
use driver_model::FRAME;
use std::alloc::{AllocError, Global};
use vd_status::Refusal;

/// A mixer and two surfaces, by their places.
#[derive(Clone, Copy)]
pub struct MixPlaces {
    pub mixer: usize,
    pub video: usize,
    pub output: usize,
}

impl Plain {
    /// Mixes a video surface into an output surface, and notes the job. None: the call waits, while a job
    /// writes one of the surfaces.
    pub fn mix(
        &mut self,
        alloc: Global,
        caller: &[u64],
        mixer: u32,
        structure: u32,
        video: u32,
        output: u32,
    ) -> Option<Result<(), Refusal>>
        ensures step { IfSome result (λ reply. Step (state_of self.old) caller.now (call.Mix mixer structure video output) (reply_with (λ nothing. Done) reply) (state_of self.new)) }
        ensures waits { IfNone result (Waits (state_of self.old) (call.Mix mixer structure video output)) }
        ensures later { IfNone result (state_of self.new ≡ state_of self.old) }
    {
        let on = match self.may_mix(mixer, structure, video, output) {
            Ok(on) => on,
            Err(refusal) => return Some(Err(refusal)),
        };
        if self.is_mix_held(on) {
            return None;
        }
        let Ok(content) = self.mixed(alloc, on) else {
            return Some(Err(Refusal::OutOfMemory));
        };
        if self.note(alloc, caller, on.output, Outcome::Ok).is_err() {
            return Some(Err(Refusal::OutOfMemory));
        }
        self.put(on.output, PlainContent::Output(content));
        Some(Ok(()))
    }

    fn is_mix_held(&self, on: MixPlaces) -> bool
        ensures { result ≡ (is_out (state_of self.now) on.video || is_out (state_of self.now) on.output) }
    {
        self.is_out(on.video) || self.is_out(on.output)
    }

    fn may_mix(
        &self,
        mixer: u32,
        structure: u32,
        video: u32,
        output: u32,
    ) -> Result<MixPlaces, Refusal>
        ensures { result ≡ mix_placed (mix (state_of self.now) mixer structure video output) }
    {
        let mixer = self.mixer(mixer)?;
        let device = self.device_at(mixer);
        let video = self.further_video(1, device, video)?;
        let output = self.further_output(2, device, output)?;
        refused_if(structure != FRAME, Refusal::BadStructure)?;
        let fits = fit_together(
            self.mixer_in(mixer).size,
            self.video_in(video).size,
            self.output_in(output).size,
        );
        refused_if(!fits, Refusal::BadSize)?;
        Ok(MixPlaces {
            mixer,
            video,
            output,
        })
    }

    // The output surface with the pixels of the video surface.
    fn mixed(&self, alloc: Global, on: MixPlaces) -> Result<PlainOutput, AllocError>
        requires mixer { IsSome (content_at (state_of self.now) as_mixer on.mixer) }
        requires video { IsSome (content_at (state_of self.now) as_video on.video) }
        requires output { IsSome (content_at (state_of self.now) as_output on.output) }
        requires size { (v : VideoSurface) (o : OutputSurface) → content_at (state_of self.now) as_video on.video ≡ Some v → content_at (state_of self.now) as_output on.output ≡ Some o → v.size ≡ o.size }
        ensures { IfOk result (IsMixOf (state_of self.now) on) }
    {
        let mixer = self.mixer_in(on.mixer);
        let video = self.video_in(on.video);
        let output = self.output_in(on.output);
        let mut bytes = vec![in alloc; 0; output.bytes.len()]?;
        mixer::mix(&video.picture, &mixer.matrix, output.format, &mut bytes);
        Ok(PlainOutput {
            format: output.format,
            size: output.size,
            bytes,
            last_flip: output.last_flip,
        })
    }
}

pub(crate) fn is_same_size(a: SizeMbs, b: SizeMbs) -> bool
    ensures { result ≡ is_same_size a b }
{
    a.width == b.width && a.height == b.height
}

// Whether a mixer and two surfaces have one size.
fn fit_together(mixer: SizeMbs, video: SizeMbs, output: SizeMbs) -> bool
    ensures { result ≡ fit_together mixer video output }
{
    is_same_size(mixer, video) && is_same_size(mixer, output)
}
