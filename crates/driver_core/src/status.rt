// How output surfaces stand to the presentation queues (vdpau.h, VdpPresentationQueueStatus).
ghost use Rattle.std.specs.Prelude.{◌≡◌, IfErr, IfOk, option_map};
ghost use Rattle.std.specs.Option.{option_map_or};
ghost use Rattle.driver_model.specs.Presented.{first_time, is_idle_at, status_at, time_if_on};
ghost use Rattle.driver_model.specs.declared.numbers.TheConstants as number;
ghost use Rattle.driver_objects.specs.Contents.{HasOutput, flip_of};
ghost use Rattle.driver_objects.specs.Kept.{kept_of};
ghost use Rattle.driver_objects.specs.Kinds.{kind_number};
ghost use Rattle.driver_core.specs.Answered.{Calls};
ghost use Rattle.driver_core.specs.Standing.{OfPlace, Presents, RefusesBoth};

use crate::answer::CoreAnswer;
use crate::driver::Core;
use driver_model::{Answer, Call, OUTPUT_SURFACE, PresentStatus, Shown};
use driver_objects::kinds::{output_in, time_on};
use vd_status::Refusal;

impl Core {
    /// How an output surface stands to the queues of its device, and when this queue showed it last, in
    /// nanoseconds: 0 where it never did, or another queue has done so since
    /// (VdpPresentationQueueQuerySurfaceStatus).
    pub fn query_status(&mut self, queue: u32, surface: u32) -> CoreAnswer<Shown>
        ensures { Calls self.old self.new (Call.QueryStatus queue surface) Answer.Status result }
    {
        match self.presented(queue, surface) {
            Ok((place, index)) => CoreAnswer::Now(Ok(Shown {
                status: self.status(index),
                first_time: self.first_time(index, place),
            })),
            Err(refusal) => CoreAnswer::Now(Err(refusal)),
        }
    }

    /// Waits until no queue shows the output surface or has an entry of it, and answers when this queue showed
    /// it last, as `query_status` does (VdpPresentationQueueBlockUntilSurfaceIdle).
    pub fn block_until_idle(&mut self, queue: u32, surface: u32) -> CoreAnswer<u64>
        ensures { Calls self.old self.new (Call.BlockUntilIdle queue surface) Answer.Time result }
    {
        match self.presented(queue, surface) {
            Ok((place, index)) => {
                if self.is_idle(index) {
                    CoreAnswer::Now(Ok(self.first_time(index, place)))
                } else {
                    CoreAnswer::Later
                }
            }
            Err(refusal) => CoreAnswer::Now(Err(refusal)),
        }
    }

    // The queue that the first handle names, by its place among all objects ever made, and which of the kept
    // objects is the output surface of its device that the second names.
    fn presented(&self, queue: u32, surface: u32) -> Result<(u64, usize), Refusal>
        ensures finds { IfOk result (λ p. Presents self.now queue surface p.0 p.1) }
        ensures has { IfOk result (λ p. HasOutput (kept_of self.now.objects) p.1) }
        ensures refuses { IfErr result (RefusesBoth self.now queue surface) }
    {
        let (index, _) = self.queue(0, queue)?;
        let on = &self.objects.kept()[index];
        let index = self.further(1, OUTPUT_SURFACE, surface, on.device)?;
        Ok((on.place, index))
    }

    // The first of visible, queued and idle that an output surface is.
    fn status(&self, index: usize) -> PresentStatus
        requires { HasOutput (kept_of self.now.objects) index }
        ensures { OfPlace self.now index (λ d place. result ≡ status_at d place) }
    {
        let holder = output_in(self.content(index)).holder;
        if self.queues.shown(holder) {
            PresentStatus::Visible
        } else if self.queues.queued(holder) {
            PresentStatus::Queued
        } else {
            PresentStatus::Idle
        }
    }

    // Whether no queue shows an output surface or has an entry of it.
    pub(crate) fn is_idle(&self, index: usize) -> bool
        requires { HasOutput (kept_of self.now.objects) index }
        ensures { OfPlace self.now index (λ d place. result ≡ is_idle_at d place) }
    {
        matches!(self.status(index), PresentStatus::Idle)
    }

    // When the queue with this place among all objects ever made showed an output surface last.
    fn first_time(&self, index: usize, queue: u64) -> u64
        requires { HasOutput (kept_of self.now.objects) index }
        ensures { OfPlace self.now index (λ d place. result ≡ first_time d queue place) }
    {
        time_on(output_in(self.content(index)).last_flip, queue)
    }
}
