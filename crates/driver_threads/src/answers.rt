// What calls answer, where they aren't refused.
ghost use Rattle.std.specs.Prelude.{◌≡◌, IfOk};
ghost use Rattle.driver.specs.declared.mixes.BeginMix.TheVariants as begin_mix;
ghost use Rattle.driver.specs.declared.renders.BeginRender.TheVariants as begin_render;

use driver::{Answered, BeginMix, BeginRender, MixJob, Pass, RenderJob};
use vd_status::Refusal;

/// The pass that comes back from a call, and what the call answered.
pub fn answer<T>(answered: Answered<T>) -> Result<(Pass, T), Refusal>
    ensures { IfOk result (λ both. both.0 ≡ answered.pass) }
{
    let Answered { pass, result, .. } = answered;
    Ok((pass, result?))
}

/// The render that was begun.
pub fn render_job(begun: BeginRender) -> Result<RenderJob, Refusal>
    ensures { IfOk result (λ job. begun ≡ begin_render.Job job) }
{
    match begun {
        BeginRender::Job(job) => Ok(job),
        BeginRender::Refused {
            pass: _pass,
            place: _place,
            submission: _submission,
            refusal,
        } => Err(refusal),
    }
}

/// The mix that was begun.
pub fn mix_job(begun: BeginMix) -> Result<MixJob, Refusal>
    ensures { IfOk result (λ job. begun ≡ begin_mix.Job job) }
{
    match begun {
        BeginMix::Job(job) => Ok(job),
        BeginMix::Refused {
            pass: _pass,
            place: _place,
            refusal,
        } => Err(refusal),
    }
}
