// Decoders (vdpau.h, VdpDecoder..), but for renders.
ghost use Rattle.std.specs.Prelude.{◌≡◌, ℕ, List};
ghost use Rattle.driver_model.specs.Answers.{reply_with};
ghost use Rattle.driver_model.specs.Creates.{decoder_create};
ghost use Rattle.driver_model.specs.Sizes.{is_profile};
ghost use Rattle.driver_model.specs.Steps.{Step};
ghost use Rattle.driver_model.specs.Surfaces.{capabilities};
ghost use Rattle.driver_model.specs.declared.calls.Call.TheVariants as call;
ghost use Rattle.driver_model.specs.declared.replies.Answer.TheVariants.{Done, Name, Supports};
ghost use Rattle.plain_driver.specs.States.{state_of};

use crate::driver::Plain;
use crate::objects::{PlainContent, PlainDecoder};
use crate::sizes::{refused_if, size_for};
use cb_types::MAX_PICTURE_MBS;
use driver_model::{
    CONSTRAINED_BASELINE, Capabilities, MAX_REFERENCES, MAX_SIDE, WEIGHTED_BASELINE,
};
use vd_status::Refusal;

impl Plain {
    /// What decoders of a profile take.
    pub fn decoder_query(&self, device: u32, profile: u32) -> Result<Capabilities, Refusal>
        ensures { (caller : List ℕ) → Step (state_of self.now) caller (call.DecoderQuery device profile) (reply_with Supports result) (state_of self.now) }
    {
        self.device(device)?;
        Ok(capabilities(profile))
    }

    /// Makes a decoder.
    pub fn decoder_create(
        &mut self,
        device: u32,
        profile: u32,
        width: u32,
        height: u32,
        max_references: u32,
    ) -> Result<u32, Refusal>
        ensures { (caller : List ℕ) → Step (state_of self.old) caller (call.DecoderCreate device profile width height max_references) (reply_with Name result) (state_of self.new) }
    {
        let place = self.room_for_decoder(device, profile, width, height, max_references)?;
        let size = size_for(width, height)?;
        let content = PlainContent::Decoder(PlainDecoder {
            profile,
            size,
            max_references,
        });
        self.add(place, content)
    }

    fn room_for_decoder(
        &self,
        device: u32,
        profile: u32,
        width: u32,
        height: u32,
        max_references: u32,
    ) -> Result<usize, Refusal>
        ensures { result ≡ decoder_create (state_of self.now) device profile width height max_references }
    {
        let place = self.device(device)?;
        refused_if(!is_profile(profile), Refusal::BadProfile)?;
        size_for(width, height)?;
        refused_if(
            max_references > MAX_REFERENCES,
            Refusal::BadInfo { field: 0 },
        )?;
        self.room(false)?;
        Ok(place)
    }

    /// Destroys a decoder.
    pub fn decoder_destroy(&mut self, decoder: u32) -> Result<(), Refusal>
        ensures { (caller : List ℕ) → Step (state_of self.old) caller (call.DecoderDestroy decoder) (reply_with (λ nothing. Done) result) (state_of self.new) }
    {
        let place = self.decoder(decoder)?;
        self.destroy(place);
        Ok(())
    }
}

fn is_profile(profile: u32) -> bool
    ensures { result ≡ is_profile profile }
{
    profile == CONSTRAINED_BASELINE || profile == WEIGHTED_BASELINE
}

fn capabilities(profile: u32) -> Capabilities
    ensures { result ≡ capabilities profile }
{
    if is_profile(profile) {
        Capabilities {
            supported: true,
            max_macroblocks: MAX_PICTURE_MBS,
            max_width: MAX_SIDE,
            max_height: MAX_SIDE,
        }
    } else {
        Capabilities {
            supported: false,
            max_macroblocks: 0,
            max_width: 0,
            max_height: 0,
        }
    }
}
