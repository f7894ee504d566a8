// Decoders (vdpau.h, VdpDecoder..).
ghost use Rattle.std.specs.Prelude.{◌≡◌};
ghost use Rattle.driver_model.specs.Sizes.{is_profile};
ghost use Rattle.driver_model.specs.Surfaces.{capabilities};
ghost use Rattle.driver_core.specs.Answered.{Calls};

use crate::answer::CoreAnswer;
use crate::driver::Core;
use driver_model::{Answer, Call, Capabilities, DECODER, MAX_REFERENCES};
use driver_objects::arguments::{capabilities, is_profile, size_for};
use driver_objects::{Content, Decoder};
use std::alloc::Global;
use vd_status::Refusal;

impl Core {
    /// What decoders of a profile take (VdpDecoderQueryCapabilities). A profile that there isn't has zeros.
    pub fn decoder_query(&mut self, device: u32, profile: u32) -> CoreAnswer<Capabilities>
        ensures { Calls self.old self.new (Call.DecoderQuery device profile) Answer.Supports result }
    {
        match self.on_device(device) {
            Ok(_) => CoreAnswer::Now(Ok(capabilities(profile))),
            Err(refusal) => CoreAnswer::Now(Err(refusal)),
        }
    }

    /// Makes a decoder of a profile for pictures of these sides in luma samples, which are rounded up to whole
    /// macroblocks, and of so many references at most (VdpDecoderCreate). Refused are, in this order: a profile
    /// that there isn't, sides that are out of range, more than 16 references, and no room for a further object.
    pub fn decoder_create(
        &mut self,
        _alloc: Global,
        device: u32,
        profile: u32,
        width: u32,
        height: u32,
        max_references: u32,
    ) -> CoreAnswer<u32>
        ensures { Calls self.old self.new (Call.DecoderCreate device profile width height max_references) Answer.Name result }
    {
        CoreAnswer::Now(self.make_decoder(device, profile, width, height, max_references))
    }

    // Looks at what was asked, in order, and makes the decoder.
    fn make_decoder(
        &mut self,
        device: u32,
        profile: u32,
        width: u32,
        height: u32,
        max_references: u32,
    ) -> Result<u32, Refusal>
        ensures { Calls self.old self.new (Call.DecoderCreate device profile width height max_references) Answer.Name (CoreAnswer.Now result) }
    {
        let on = self.on_device(device)?;
        if !is_profile(profile) {
            return Err(Refusal::BadProfile);
        }
        let size = size_for(width, height)?;
        if max_references > MAX_REFERENCES {
            return Err(Refusal::BadInfo { field: 0 });
        }
        let decoder = Content::Decoder(Decoder {
            profile,
            size,
            max_references,
        });
        self.add(DECODER, Some(on), decoder)
    }

    /// Destroys a decoder: its name is dead from now on (VdpDecoderDestroy). A job that uses it goes on.
    pub fn decoder_destroy(&mut self, decoder: u32) -> CoreAnswer<()>
        ensures { Calls self.old self.new (Call.DecoderDestroy decoder) (λ _. Answer.Done) result }
    {
        match self.decoder(0, decoder) {
            Ok(index) => {
                self.destroy(index);
                CoreAnswer::Now(Ok(()))
            }
            Err(refusal) => CoreAnswer::Now(Err(refusal)),
        }
    }
}
