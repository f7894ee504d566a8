// Video mixers (vdpau.h, VdpVideoMixer..).
ghost use Rattle.driver_core.specs.Answered.{Calls};

use crate::answer::CoreAnswer;
use crate::driver::Core;
use driver_model::{Answer, Call, VIDEO_MIXER};
use driver_objects::arguments::size_for;
use driver_objects::{Content, VideoMixer};
use mixer::DEFAULT_MATRIX;
use std::alloc::Global;
use vd_status::Refusal;

impl Core {
    /// Makes a mixer for pictures of these sides in luma samples, which are rounded up to whole macroblocks
    /// (VdpVideoMixerCreate). It has the default matrix. Refused are, in this order: sides that are out of range,
    /// and no room for a further object.
    pub fn mixer_create(
        &mut self,
        _alloc: Global,
        device: u32,
        width: u32,
        height: u32,
    ) -> CoreAnswer<u32>
        ensures { Calls self.old self.new (Call.MixerCreate device width height) Answer.Name result }
    {
        CoreAnswer::Now(self.make_mixer(device, width, height))
    }

    // Looks at what was asked, in order, and makes the mixer.
    fn make_mixer(&mut self, device: u32, width: u32, height: u32) -> Result<u32, Refusal>
        ensures { Calls self.old self.new (Call.MixerCreate device width height) Answer.Name (CoreAnswer.Now result) }
    {
        let on = self.on_device(device)?;
        let size = size_for(width, height)?;
        let mixer = Content::Mixer(VideoMixer {
            size,
            matrix: DEFAULT_MATRIX,
        });
        self.add(VIDEO_MIXER, Some(on), mixer)
    }

    /// Gives a mixer another matrix from Y, Cb and Cr to red, green and blue (VdpVideoMixerSetAttributeValues,
    /// of VDP_VIDEO_MIXER_ATTRIBUTE_CSC_MATRIX): three rows of three coefficients and a constant, in 1/256.
    pub fn mixer_set_matrix(&mut self, mixer: u32, matrix: [i32; 12]) -> CoreAnswer<()>
        ensures { Calls self.old self.new (Call.MixerSetMatrix mixer matrix) (λ _. Answer.Done) result }
    {
        match self.mixer(0, mixer) {
            Ok(index) => {
                let size = self.mixer_at(index).size;
                self.write(index, Content::Mixer(VideoMixer { size, matrix }));
                CoreAnswer::Now(Ok(()))
            }
            Err(refusal) => CoreAnswer::Now(Err(refusal)),
        }
    }

    /// Destroys a mixer: its name is dead from now on (VdpVideoMixerDestroy). A job that uses it goes on.
    pub fn mixer_destroy(&mut self, mixer: u32) -> CoreAnswer<()>
        ensures { Calls self.old self.new (Call.MixerDestroy mixer) (λ _. Answer.Done) result }
    {
        match self.mixer(0, mixer) {
            Ok(index) => {
                self.destroy(index);
                CoreAnswer::Now(Ok(()))
            }
            Err(refusal) => CoreAnswer::Now(Err(refusal)),
        }
    }
}
