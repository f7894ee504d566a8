// Objects of known kinds: what handles name, and what they have.
ghost use Rattle.std.specs.Prelude.{IfOk, IfErr};
ghost use Rattle.driver_model.specs.Objects.{DecoderObject, MixerObject, VideoObject, as_decoder, as_mixer, as_video};
ghost use Rattle.driver_objects.specs.Contents.{HasContent};
ghost use Rattle.driver_objects.specs.Kept.{kept_of};
ghost use Rattle.driver_objects.specs.Kinds.{is_decoder, is_mixer, is_video};
ghost use Rattle.driver_core.specs.Found.{FindsAt, Refuses};
ghost use Rattle.driver_core.specs.Roles.{IsLiveAt};

use crate::driver::Core;
use driver_model::{DECODER, VIDEO_MIXER, VIDEO_SURFACE};
use driver_objects::{Content, Decoder, VideoMixer, VideoSurface};
use vd_status::Refusal;

impl Core {
    // Which of the kept objects is the video surface that a handle names.
    pub(crate) fn video(&self, arg: u32, name: u32) -> Result<usize, Refusal>
        ensures live { IfOk result (IsLiveAt is_video (kept_of self.now.objects)) }
        ensures finds { IfOk result (FindsAt as_video VideoObject self.now arg name) }
        ensures refuses { IfErr result (Refuses as_video VideoObject self.now arg name) }
    {
        self.in_use(arg, VIDEO_SURFACE, name)
    }

    // Which of them is the decoder that a handle names.
    pub(crate) fn decoder(&self, arg: u32, name: u32) -> Result<usize, Refusal>
        ensures live { IfOk result (IsLiveAt is_decoder (kept_of self.now.objects)) }
        ensures finds { IfOk result (FindsAt as_decoder DecoderObject self.now arg name) }
        ensures refuses { IfErr result (Refuses as_decoder DecoderObject self.now arg name) }
    {
        self.in_use(arg, DECODER, name)
    }

    // Which of them is the mixer that a handle names.
    pub(crate) fn mixer(&self, arg: u32, name: u32) -> Result<usize, Refusal>
        ensures live { IfOk result (IsLiveAt is_mixer (kept_of self.now.objects)) }
        ensures finds { IfOk result (FindsAt as_mixer MixerObject self.now arg name) }
        ensures refuses { IfErr result (Refuses as_mixer MixerObject self.now arg name) }
    {
        self.in_use(arg, VIDEO_MIXER, name)
    }

    // What a video surface has.
    pub(crate) fn video_at(&self, index: usize) -> &VideoSurface
        requires { IsLiveAt is_video (kept_of self.now.objects) index }
        ensures { HasContent (kept_of self.now.objects) index (Content.Video result.now) }
    {
        match self.content(index) {
            Content::Video(surface) => surface,
            _ => unreachable!(),
        }
    }

    // What a decoder has.
    pub(crate) fn decoder_at(&self, index: usize) -> Decoder
        requires { IsLiveAt is_decoder (kept_of self.now.objects) index }
        ensures { HasContent (kept_of self.now.objects) index (Content.Decoder result) }
    {
        match self.content(index) {
            Content::Decoder(decoder) => *decoder,
            _ => unreachable!(),
        }
    }

    // What a mixer has.
    pub(crate) fn mixer_at(&self, index: usize) -> VideoMixer
        requires { IsLiveAt is_mixer (kept_of self.now.objects) index }
        ensures { HasContent (kept_of self.now.objects) index (Content.Mixer result) }
    {
        match self.content(index) {
            Content::Mixer(mixer) => *mixer,
            _ => unreachable!(),
        }
    }
}
