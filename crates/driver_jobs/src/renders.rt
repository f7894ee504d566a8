// The decoding of a picture (vdpau.h, VdpDecoderRender).
ghost use Rattle.std.specs.Prelude.{◌≡◌};
ghost use Rattle.decoder_render.specs.Prepared as units;
ghost use Rattle.vd_plane.specs.Picture.{HasSize};
ghost use Rattle.driver_jobs.specs.Ready.{IsReady};

use cb_types::{PictureInfo, SizeMbs};
use decoder_render::{Outcome, Prepared};
use recon::Refs;
use std::thread::Threads;
use vd_outside::OpenGate;
use vd_plane::Picture;

/// A picture that is to be decoded: its info, its units with the memory that they need, and the samples of its
/// references, which are shared.
#[derive(Drop)]
pub struct CoreRender {
    // By it the driver finds what it keeps of the job.
    number: u64,
    info: PictureInfo,
    size: SizeMbs,
    prepared: Prepared,
    refs: Refs,
    ghost ready: { IsReady info },
    ghost sized: { units.size_of prepared ≡ size },
}

impl CoreRender {
    ghost use Rattle.cb_types.specs.AcceptedInfo.{IsAcceptedBySome};
    ghost use Rattle.recon.specs.References.{pictures_of};
    ghost use Rattle.driver_jobs.specs.Renders.{IsDoneOf, given_of, held_by, number_of, payloads_of};
    ghost use Rattle.decoder_render.specs.Coverage.{given};

    /// The job of this number: the decoding of these units to a picture of this size, by this info and with the
    /// references that it names.
    pub fn new(
        number: u64,
        info: PictureInfo,
        size: SizeMbs,
        prepared: Prepared,
        refs: Refs,
    ) -> CoreRender
        requires info { IsAcceptedBySome info }
        requires size { units.size_of prepared ≡ size }
        ensures number { number_of result ≡ number }
        ensures given { given_of result ≡ given info size (pictures_of refs) }
        ensures payloads { payloads_of result ≡ units.units_of prepared }
        ensures picture { held_by result ≡ units.picture_of prepared }
    {
        CoreRender {
            number,
            info,
            size,
            prepared,
            refs,
        }
    }

    /// Decodes the picture.
    pub fn run(self) -> CoreRenderDone
        ensures { IsDoneOf self result }
    {
        let CoreRender {
            number,
            info,
            size,
            mut prepared,
            refs,
        } = self;
        let outcome = prepared.decode(&info, &refs);
        CoreRenderDone {
            number,
            outcome,
            size,
            picture: prepared.picture(),
        }
    }

    /// Decodes the picture, and constructs its slices beside each other, as far as threads can be started.
    pub fn run_at_once<R: Threads + Sync>(self, rt: &R) -> CoreRenderDone
        ensures { IsDoneOf self result }
    {
        let CoreRender {
            number,
            info,
            size,
            mut prepared,
            refs,
        } = self;
        let mut none: [OpenGate; 0] = [];
        let outcome = prepared.decode_gated(rt, &info, &refs, &mut none);
        CoreRenderDone {
            number,
            outcome,
            size,
            picture: prepared.picture(),
        }
    }
}

/// A picture whose decoding has come to an outcome.
#[derive(Drop)]
pub struct CoreRenderDone {
    number: u64,
    outcome: Outcome,
    size: SizeMbs,
    picture: Picture,
    ghost sized: { HasSize picture size },
}

impl CoreRenderDone {
    ghost use Rattle.std.specs.Prelude.{◌≡◌};
    ghost use Rattle.vd_plane.specs.Picture.{HasSize};
    ghost use Rattle.driver_jobs.specs.Renders.{done_number, done_size, outcome_of, picture_of};

    /// The job's number.
    pub fn number(&self) -> u64
        ensures { result ≡ done_number self.now }
    {
        self.number
    }

    /// What the picture's units have come to.
    pub fn outcome(&self) -> Outcome
        ensures { result ≡ outcome_of self.now }
    {
        self.outcome
    }

    /// The picture's size.
    pub fn size(&self) -> SizeMbs
        ensures { result ≡ done_size self.now }
    {
        self.size
    }

    /// The picture, which has the decoded samples where the outcome is `Ok`.
    pub fn picture(self) -> Picture
        ensures picture { result ≡ picture_of self }
        ensures size { HasSize result (done_size self) }
    {
        self.picture
    }
}
