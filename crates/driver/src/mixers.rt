// Mixers (vdpau.h, VdpVideoMixer..).
ghost use Rattle.std.specs.Prelude.{◌≡◌};
ghost use Rattle.driver_model.specs.declared.calls.Call.TheVariants as Call;
ghost use Rattle.driver_model.specs.declared.replies.Answer.TheVariants as Answer;
ghost use Rattle.driver.specs.Made.{Makes};
ghost use Rattle.driver.specs.Passes.{IsOf};

use crate::asked::Ask;
use crate::driver::{Answered, Driver, Pass};
use driver_core::{Core, CoreAnswer};
use std::alloc::Global;
use std::sync::Wait;

#[derive(Drop)]
struct MixerCreate {
    alloc: Global,
    device: u32,
    width: u32,
    height: u32,
}

impl Ask for MixerCreate {
    type Value = u32;

    ghost call = { λ ask. Call.MixerCreate ask.device ask.width ask.height };

    ghost answer = { Answer.Name };

    fn ask(&self, core: &mut Core) -> CoreAnswer<u32> {
        core.mixer_create(self.alloc, self.device, self.width, self.height)
    }
}

#[derive(Drop)]
struct MixerSetMatrix {
    mixer: u32,
    matrix: [i32; 12],
}

impl Ask for MixerSetMatrix {
    type Value = ();

    ghost call = { λ ask. Call.MixerSetMatrix ask.mixer ask.matrix };

    ghost answer = { λ _. Answer.Done };

    fn ask(&self, core: &mut Core) -> CoreAnswer<()> {
        core.mixer_set_matrix(self.mixer, self.matrix)
    }
}

#[derive(Drop)]
struct MixerDestroy {
    mixer: u32,
}

impl Ask for MixerDestroy {
    type Value = ();

    ghost call = { λ ask. Call.MixerDestroy ask.mixer };

    ghost answer = { λ _. Answer.Done };

    fn ask(&self, core: &mut Core) -> CoreAnswer<()> {
        core.mixer_destroy(self.mixer)
    }
}

impl Driver {
    /// Makes a mixer for pictures of these sides in luma samples, which are rounded up to whole macroblocks
    /// (VdpVideoMixerCreate). It has the default matrix. Refused are, in this order: sides that are out of range,
    /// and no room for a further object.
    pub fn mixer_create<R: Wait>(
        &self,
        rt: &R,
        alloc: Global,
        pass: Pass,
        device: u32,
        width: u32,
        height: u32,
    ) -> Answered<u32>
        requires { IsOf pass self.now }
        ensures { Makes pass (Call.MixerCreate device width height) Answer.Name result }
    {
        self.make(
            rt,
            pass,
            &MixerCreate {
                alloc,
                device,
                width,
                height,
            },
        )
    }

    /// Gives a mixer another matrix from Y, Cb and Cr to red, green and blue (VdpVideoMixerSetAttributeValues,
    /// of VDP_VIDEO_MIXER_ATTRIBUTE_CSC_MATRIX): three rows of three coefficients and a constant, in 1/256.
    pub fn mixer_set_matrix<R: Wait>(
        &self,
        rt: &R,
        pass: Pass,
        mixer: u32,
        matrix: [i32; 12],
    ) -> Answered<()>
        requires { IsOf pass self.now }
        ensures { Makes pass (Call.MixerSetMatrix mixer matrix) (λ _. Answer.Done) result }
    {
        self.make(rt, pass, &MixerSetMatrix { mixer, matrix })
    }

    /// Destroys a mixer: its name is dead from now on (VdpVideoMixerDestroy). A job that uses it goes on.
    pub fn mixer_destroy<R: Wait>(&self, rt: &R, pass: Pass, mixer: u32) -> Answered<()>
        requires { IsOf pass self.now }
        ensures { Makes pass (Call.MixerDestroy mixer) (λ _. Answer.Done) result }
    {
        self.make(rt, pass, &MixerDestroy { mixer })
    }
}
