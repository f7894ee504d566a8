// Video mixers (vdpau.h, VdpVideoMixer..), but for mixes.
ghost use Rattle.std.specs.Prelude.{◌≡◌, ℕ, List, Some, IsSome};
ghost use Rattle.driver_model.specs.Answers.{reply_with};
ghost use Rattle.driver_model.specs.Creates.{mixer_create};
ghost use Rattle.driver_model.specs.Objects.{as_mixer};
ghost use Rattle.driver_model.specs.States.{content_at};
ghost use Rattle.driver_model.specs.Steps.{Step};
ghost use Rattle.driver_model.specs.declared.calls.Call.TheVariants as call;
ghost use Rattle.driver_model.specs.declared.replies.Answer.TheVariants.{Done, Name};
ghost use Rattle.plain_driver.specs.States.{mixer_of, state_of};

use crate::driver::Plain;
use crate::objects::{PlainContent, PlainMixer};
use crate::sizes::size_for;
use mixer::DEFAULT_MATRIX;
use vd_status::Refusal;

impl Plain {
    /// Makes a video mixer with the default matrix.
    pub fn mixer_create(&mut self, device: u32, width: u32, height: u32) -> Result<u32, Refusal>
        ensures { (caller : List ℕ) → Step (state_of self.old) caller (call.MixerCreate device width height) (reply_with Name result) (state_of self.new) }
    {
        let place = self.room_for_mixer(device, width, height)?;
        let size = size_for(width, height)?;
        let matrix = DEFAULT_MATRIX;
        self.add(place, PlainContent::Mixer(PlainMixer { size, matrix }))
    }

    fn room_for_mixer(&self, device: u32, width: u32, height: u32) -> Result<usize, Refusal>
        ensures { result ≡ mixer_create (state_of self.now) device width height }
    {
        let place = self.device(device)?;
        size_for(width, height)?;
        self.room(false)?;
        Ok(place)
    }

    /// Sets the matrix from Y, Cb and Cr to red, green and blue.
    pub fn mixer_set_matrix(&mut self, mixer: u32, matrix: [i32; 12]) -> Result<(), Refusal>
        ensures { (caller : List ℕ) → Step (state_of self.old) caller (call.MixerSetMatrix mixer matrix) (reply_with (λ nothing. Done) result) (state_of self.new) }
    {
        let place = self.mixer(mixer)?;
        let size = self.mixer_in(place).size;
        self.put(place, PlainContent::Mixer(PlainMixer { size, matrix }));
        Ok(())
    }

    /// Destroys a video mixer.
    pub fn mixer_destroy(&mut self, mixer: u32) -> Result<(), Refusal>
        ensures { (caller : List ℕ) → Step (state_of self.old) caller (call.MixerDestroy mixer) (reply_with (λ nothing. Done) result) (state_of self.new) }
    {
        let place = self.mixer(mixer)?;
        self.destroy(place);
        Ok(())
    }

    // The mixer at a place.
    pub(crate) fn mixer_in(&self, place: usize) -> PlainMixer
        requires { IsSome (content_at (state_of self.now) as_mixer place) }
        ensures { content_at (state_of self.now) as_mixer place ≡ Some (mixer_of result) }
    {
        match &self.objects[place].content {
            PlainContent::Mixer(mixer) => *mixer,
            _ => unreachable!(),
        }
    }
}
