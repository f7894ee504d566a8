// Renders: jobs that write video surfaces (vdpau.h, VdpDecoderRender).
ghost use Rattle.driver.specs.InHand.{IsBegun, KnowsRender, KnowsRenderDone};
ghost use Rattle.driver.specs.Passes.{view};

use crate::driver::{Answered, Driver, Pass};
use cb_types::PictureInfo;
use driver_core::{CoreAnswer, CoreBegin, CoreRender, CoreRenderDone, count_units};
use std::alloc::Global;
use std::marker::Brand;
use std::sync::Wait;
use std::thread::Threads;
use submission::Submission;
use vd_outside::Gate;
use vd_status::Refusal;

/// What a call answers that begins a render.
pub enum BeginRender {
    /// The job, which holds the caller's pass. It is to be run, and then to be ended on the driver.
    Job(RenderJob),
    /// It was refused, and is the entry at this place of the history. The submission comes back.
    Refused {
        pass: Pass,
        place: u64,
        submission: Submission,
        refusal: Refusal,
    },
}

/// A render that was begun and is to be run. It holds its caller's pass, and the place of its beginning in the
/// history.
pub struct RenderJob {
    pub(crate) pass: Pass,
    pub(crate) place: u64,
    pub(crate) job: CoreRender,
    ghost begun: { IsBegun (view pass) place },
    ghost knows: { KnowsRender (view pass).seen place job },
}

/// A render that was run, and is to be ended.
pub struct RenderDone {
    pub(crate) pass: Pass,
    pub(crate) place: u64,
    pub(crate) done: CoreRenderDone,
    ghost begun: { IsBegun (view pass) place },
    ghost knows: { KnowsRenderDone (view pass).seen place done },
}

impl RenderJob {
    ghost use Rattle.driver.specs.Renders.{HandsOn};

    /// Decodes the picture. The job passes the gate at place 0 before its work, and at place 1 behind it. It takes no
    /// lock and waits for nobody.
    pub fn run<G: Gate>(self, gate: &mut G) -> RenderDone
        ensures { HandsOn self result }
    {
        let RenderJob { pass, place, job } = self;
        gate.pass(0);
        let done = job.run();
        gate.pass(1);
        RenderDone { pass, place, done }
    }

    /// Decodes the picture as `run` does, and constructs its slices beside each other, as far as threads can be
    /// started. It takes no lock, and waits for no threads but those that it starts.
    pub fn run_at_once<R: Threads + Sync, G: Gate>(self, rt: &R, gate: &mut G) -> RenderDone
        ensures { HandsOn self result }
    {
        let RenderJob { pass, place, job } = self;
        gate.pass(0);
        let done = job.run_at_once(rt);
        gate.pass(1);
        RenderDone { pass, place, done }
    }
}

impl Driver {
    ghost use Rattle.std.specs.Prelude.{◌≡◌, List, ℕ};
    ghost use Rattle.driver_jobs.specs.Units.{HasUnits};
    ghost use Rattle.driver_model.specs.declared.calls.Call.TheVariants as Call;
    ghost use Rattle.driver.specs.Jobs.{EndsJob};
    ghost use Rattle.driver.specs.Passes.{IsOf};
    ghost use Rattle.driver.specs.Renders.{IsBeginRender, done_pass, done_place};

    /// Begins the decoding of a picture into a video surface (VdpDecoderRender). Refused are, after the handles and in
    /// this order: a target that is one of the references, surfaces that haven't the decoder's size, a field of the
    /// info that the decoder doesn't take, and bytes that have not as many units as the info says. The call waits
    /// while a job writes the target or a reference, and takes no memory meanwhile.
    pub fn begin_render<R: Wait>(
        &self,
        rt: &R,
        alloc: Global,
        pass: Pass,
        decoder: u32,
        target: u32,
        info: &PictureInfo,
        submission: Submission,
    ) -> BeginRender
        requires { IsOf pass self.now }
        ensures { IsBeginRender pass (Call.Render decoder target info.now submission) submission result }
    {
        let units = count_units(submission.bytes());
        self.begin_counted(rt, alloc, pass, decoder, target, info, submission, units)
    }

    // The same, where the submission's units were counted before.
    fn begin_counted<R: Wait>(
        &self,
        rt: &R,
        alloc: Global,
        pass: Pass,
        decoder: u32,
        target: u32,
        info: &PictureInfo,
        submission: Submission,
        units: u32,
    ) -> BeginRender
        ghost bytes: { List ℕ }
        requires of { IsOf pass self.now }
        requires bytes { submission ≡ bytes }
        requires units { HasUnits bytes units }
        ensures { IsBeginRender pass (Call.Render decoder target info.now bytes) bytes result }
    {
        let named = (decoder, target, *info);
        let mut pass = pass;
        let mut submission = submission;
        for _ in rt.forever() {
            let mut held = self.lock.take(rt, pass.token);
            let seen = self.lock.logged();
            match held
                .value()
                .core
                .begin_counted(alloc, decoder, target, info, submission, units)
            {
                CoreBegin::Job(job) => {
                    let (pass, place) = self.log_item::<(u32, u32, PictureInfo), CoreRender, Brand>(
                        held, &named, &job,
                    );
                    return BeginRender::Job(RenderJob { pass, place, job });
                }
                CoreBegin::Refused {
                    submission: back,
                    refusal,
                } => {
                    let Some(submission) = back else {
                        unreachable!()
                    };
                    let (pass, place) = self.log_item::<(u32, u32, PictureInfo), Refusal, Brand>(
                        held, &named, &refusal,
                    );
                    return BeginRender::Refused {
                        pass,
                        place,
                        submission,
                        refusal,
                    };
                }
                CoreBegin::Later(back) => {
                    let Some(again) = back else { unreachable!() };
                    let token = held.give_back(&self.lock);
                    pass = Pass { token };
                    submission = again;
                    self.lock.rest(rt, seen);
                }
            }
        }
        unreachable!()
    }

    /// Ends a render that was run. What is answered is the place of the beginning, and what the picture's units have
    /// come to: `Bitstream` names the first unit that isn't accepted, `Incomplete` says how many macroblocks aren't
    /// covered. Where all is well the target has the picture, if it is still there; else it keeps its samples.
    pub fn end_render<R: Wait>(&self, rt: &R, done: RenderDone) -> Answered<()>
        requires { IsOf (done_pass done) self.now }
        ensures { EndsJob (done_pass done) (done_place done) result }
    {
        let RenderDone { pass, place, done } = done;
        let mut held = self.lock.take(rt, pass.token);
        match held.value().core.end_render(done) {
            CoreAnswer::Now(result) => {
                let (pass, _) = self.log_item::<u64, (), Brand>(held, &place, &());
                Answered {
                    pass,
                    place,
                    result,
                }
            }
            CoreAnswer::Later => unreachable!(),
        }
    }
}
