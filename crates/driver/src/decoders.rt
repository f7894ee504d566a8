// Decoders (vdpau.h, VdpDecoder..).
ghost use Rattle.std.specs.Prelude.{◌≡◌};
ghost use Rattle.driver_model.specs.declared.calls.Call.TheVariants as Call;
ghost use Rattle.driver_model.specs.declared.replies.Answer.TheVariants as Answer;
ghost use Rattle.driver.specs.Made.{Makes};
ghost use Rattle.driver.specs.Passes.{IsOf};

use crate::asked::Ask;
use crate::driver::{Answered, Driver, Pass};
use driver_core::{Core, CoreAnswer};
use driver_model::Capabilities;
use std::alloc::Global;
use std::sync::Wait;

#[derive(Drop)]
struct DecoderQuery {
    device: u32,
    profile: u32,
}

impl Ask for DecoderQuery {
    type Value = Capabilities;

    ghost call = { λ ask. Call.DecoderQuery ask.device ask.profile };

    ghost answer = { Answer.Supports };

    fn ask(&self, core: &mut Core) -> CoreAnswer<Capabilities> {
        core.decoder_query(self.device, self.profile)
    }
}

#[derive(Drop)]
struct DecoderCreate {
    alloc: Global,
    device: u32,
    profile: u32,
    width: u32,
    height: u32,
    max_references: u32,
}

impl Ask for DecoderCreate {
    type Value = u32;

    ghost call = { λ ask. Call.DecoderCreate ask.device ask.profile ask.width ask.height ask.max_references };

    ghost answer = { Answer.Name };

    fn ask(&self, core: &mut Core) -> CoreAnswer<u32> {
        core.decoder_create(
            self.alloc,
            self.device,
            self.profile,
            self.width,
            self.height,
            self.max_references,
        )
    }
}

#[derive(Drop)]
struct DecoderDestroy {
    decoder: u32,
}

impl Ask for DecoderDestroy {
    type Value = ();

    ghost call = { λ ask. Call.DecoderDestroy ask.decoder };

    ghost answer = { λ _. Answer.Done };

    fn ask(&self, core: &mut Core) -> CoreAnswer<()> {
        core.decoder_destroy(self.decoder)
    }
}

impl Driver {
    /// What decoders of a profile take (VdpDecoderQueryCapabilities). A profile that there isn't has zeros.
    pub fn decoder_query<R: Wait>(
        &self,
        rt: &R,
        pass: Pass,
        device: u32,
        profile: u32,
    ) -> Answered<Capabilities>
        requires { IsOf pass self.now }
        ensures { Makes pass (Call.DecoderQuery device profile) Answer.Supports result }
    {
        self.make(rt, pass, &DecoderQuery { device, profile })
    }

    /// Makes a decoder of a profile for pictures of these sides in luma samples, which are rounded up to whole
    /// macroblocks, and of so many references at most (VdpDecoderCreate). Refused are, in this order: a profile
    /// that there isn't, sides that are out of range, more than 16 references, and no room for a further object.
    pub fn decoder_create<R: Wait>(
        &self,
        rt: &R,
        alloc: Global,
        pass: Pass,
        device: u32,
        profile: u32,
        width: u32,
        height: u32,
        max_references: u32,
    ) -> Answered<u32>
        requires { IsOf pass self.now }
        ensures { Makes pass (Call.DecoderCreate device profile width height max_references) Answer.Name result }
    {
        self.make(
            rt,
            pass,
            &DecoderCreate {
                alloc,
                device,
                profile,
                width,
                height,
                max_references,
            },
        )
    }

    /// Destroys a decoder: its name is dead from now on (VdpDecoderDestroy). A job that uses it goes on.
    pub fn decoder_destroy<R: Wait>(&self, rt: &R, pass: Pass, decoder: u32) -> Answered<()>
        requires { IsOf pass self.now }
        ensures { Makes pass (Call.DecoderDestroy decoder) (λ _. Answer.Done) result }
    {
        self.make(rt, pass, &DecoderDestroy { decoder })
    }
}
