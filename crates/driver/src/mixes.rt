// Mixes: jobs that write output surfaces (vdpau.h, VdpVideoMixerRender).
ghost use Rattle.driver.specs.InHand.{IsBegun, KnowsMix, KnowsMixDone};
ghost use Rattle.driver.specs.Passes.{view};

use crate::driver::{Answered, Driver, Pass};
use driver_core::{CoreAnswer, CoreBegin, CoreMix, CoreMixDone};
use std::alloc::Global;
use std::marker::Brand;
use std::sync::Wait;
use vd_outside::Gate;
use vd_status::Refusal;

/// What a call answers that begins a mix.
pub enum BeginMix {
    /// The job, which holds the caller's pass. It is to be run, and then to be ended on the driver.
    Job(MixJob),
    /// It was refused, and is the entry at this place of the history.
    Refused {
        pass: Pass,
        place: u64,
        refusal: Refusal,
    },
}

/// A mix that was begun and is to be run. It holds its caller's pass, and the place of its beginning in the history.
pub struct MixJob {
    pub(crate) pass: Pass,
    pub(crate) place: u64,
    pub(crate) job: CoreMix,
    ghost begun: { IsBegun (view pass) place },
    ghost knows: { KnowsMix (view pass).seen place job },
}

/// A mix that was run, and is to be ended.
pub struct MixDone {
    pub(crate) pass: Pass,
    pub(crate) place: u64,
    pub(crate) done: CoreMixDone,
    ghost begun: { IsBegun (view pass) place },
    ghost knows: { KnowsMixDone (view pass).seen place done },
}

impl MixJob {
    ghost use Rattle.std.specs.Prelude.{◌≡◌};
    ghost use Rattle.driver.specs.Mixes.{done_pass, done_place, pass_of, place_of};

    /// Mixes the picture. The job passes the gate at place 0 before its work, and at place 1 behind it. It takes no
    /// lock and waits for nobody.
    pub fn run<G: Gate>(self, gate: &mut G) -> MixDone
        ensures pass { done_pass result ≡ pass_of self }
        ensures place { done_place result ≡ place_of self }
    {
        let MixJob { pass, place, job } = self;
        gate.pass(0);
        let done = job.run();
        gate.pass(1);
        MixDone { pass, place, done }
    }
}

impl Driver {
    ghost use Rattle.driver_model.specs.declared.calls.Call.TheVariants as Call;
    ghost use Rattle.driver.specs.Jobs.{EndsJob};
    ghost use Rattle.driver.specs.Mixes.{IsBeginMix, done_pass, done_place};
    ghost use Rattle.driver.specs.Passes.{IsOf};

    /// Begins the mixing of a video surface into an output surface by a mixer's matrix (VdpVideoMixerRender). Refused
    /// are, after the handles and in this order: a picture structure other than `FRAME`, and a mixer and surfaces that
    /// are not of one size. The call waits while a job writes one of the surfaces.
    pub fn begin_mix<R: Wait>(
        &self,
        rt: &R,
        alloc: Global,
        pass: Pass,
        mixer: u32,
        structure: u32,
        video: u32,
        output: u32,
    ) -> BeginMix
        requires { IsOf pass self.now }
        ensures { IsBeginMix pass (Call.Mix mixer structure video output) result }
    {
        let named = (mixer, structure, video, output);
        let mut pass = pass;
        for _ in rt.forever() {
            let mut held = self.lock.take(rt, pass.token);
            let seen = self.lock.logged();
            match held
                .value()
                .core
                .begin_mix(alloc, mixer, structure, video, output)
            {
                CoreBegin::Job(job) => {
                    let (pass, place) = self.log_item::<(u32, u32, u32, u32), CoreMix, Brand>(
                        held, &named, &job,
                    );
                    return BeginMix::Job(MixJob { pass, place, job });
                }
                CoreBegin::Refused {
                    submission: _nothing,
                    refusal,
                } => {
                    let (pass, place) = self.log_item::<(u32, u32, u32, u32), Refusal, Brand>(
                        held, &named, &refusal,
                    );
                    return BeginMix::Refused {
                        pass,
                        place,
                        refusal,
                    };
                }
                CoreBegin::Later(_nothing) => {
                    let token = held.give_back(&self.lock);
                    pass = Pass { token };
                    self.lock.rest(rt, seen);
                }
            }
        }
        unreachable!()
    }

    /// Ends a mix that was run. The output surface has the pixels, if it is still there. What is answered is the
    /// place of the beginning, and Ok.
    pub fn end_mix<R: Wait>(&self, rt: &R, done: MixDone) -> Answered<()>
        requires { IsOf (done_pass done) self.now }
        ensures { EndsJob (done_pass done) (done_place done) result }
    {
        let MixDone { pass, place, done } = done;
        let mut held = self.lock.take(rt, pass.token);
        match held.value().core.end_mix(done) {
            CoreAnswer::Now(result) => {
                let (pass, _) = self.log_item::<u64, (), Brand>(held, &place, &());
                Answered {
                    pass,
                    place,
                    result,
                }
            }
            CoreAnswer::Later => unreachable!(),
        }
    }
}
