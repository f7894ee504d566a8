// The promise of a time.
ghost use Rattle.std.specs.Prelude.{◌≡◌};
ghost use Rattle.driver.specs.Passes.{IsOf, view};
ghost use Rattle.stream_calls.specs.StreamCalls.{Fed, Stream};
ghost use Rattle.stream_task.specs.Keeping.{Ready};
ghost use Rattle.stream_task.specs.Leaving.{Acted, behind_call, called_answer, with_phase};
ghost use Rattle.stream_task.specs.declared.phase.Phase.TheVariants as phase;

use crate::answers::Stepped;
use crate::phase::Phase;
use crate::task::StreamTask;
use driver::{Answered, Driver, Pass};
use std::sync::Wait;
use vd_status::Refusal;

impl StreamTask {
    // Promises that nothing is displayed for an earlier time any more. Without a queue there is nothing to promise.
    pub(crate) fn promise<R: Wait>(
        &mut self,
        rt: &R,
        driver: &Driver,
        pass: Pass,
        time: u64,
    ) -> (Pass, Option<Stepped>)
        requires of { IsOf pass driver.now }
        requires ready { (of : Stream) × ((fed : Fed) × Ready (with_phase self.old (phase.Promising time)) of fed (view pass)) }
        ensures of { IsOf result.0 driver.now }
        ensures acted { (of : Stream) (fed : Fed) → Ready (with_phase self.old (phase.Promising time)) of fed (view pass) → Acted self.new of fed (view pass) (view result.0) result.1 }
    {
        let Some(queue) = self.objects.queue else {
            self.phase = Phase::Asking;
            return (pass, None);
        };
        self.phase = Phase::Promising(time);
        let Answered { pass, result, .. } = driver.promise(rt, pass, queue, time);
        let answer = self.was_promised(result);
        (pass, Some(answer))
    }

    fn was_promised(&mut self, reply: Result<(), Refusal>) -> Stepped
        ensures task { self.new ≡ behind_call self.old (λ _. with_phase self.old phase.Asking) reply }
        ensures answer { result ≡ called_answer reply }
    {
        if reply.is_ok() {
            self.phase = Phase::Asking;
        }
        self.called(reply)
    }
}
