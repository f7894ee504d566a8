// The display of a picture that was mixed.
ghost use Rattle.std.specs.Prelude.{◌≡◌, ◌<◌};
ghost use Rattle.driver.specs.Passes.{IsOf, view};
ghost use Rattle.stream_calls.specs.StreamCalls.{Fed, Stream};
ghost use Rattle.stream_task.specs.Keeping.{Ready};
ghost use Rattle.stream_task.specs.Leaving.{Went, behind_call, called_answer, displayed, with_phase};
ghost use Rattle.stream_task.specs.declared.phase.Phase.TheVariants as phase;

use crate::answers::Stepped;
use crate::objects::{OUTPUTS, Place};
use crate::phase::Phase;
use crate::task::StreamTask;
use driver::{Answered, Driver, Pass};
use std::sync::Wait;
use vd_status::Refusal;

impl StreamTask {
    // Displays the output surface in turn at this time.
    pub(crate) fn display<R: Wait>(
        &mut self,
        rt: &R,
        driver: &Driver,
        pass: Pass,
        time: u64,
    ) -> (Pass, Stepped)
        requires of { IsOf pass driver.now }
        requires ready { (of : Stream) × ((fed : Fed) × Ready (with_phase self.old (phase.Displaying time)) of fed (view pass)) }
        ensures of { IsOf result.0 driver.now }
        ensures went { (of : Stream) (fed : Fed) → Ready (with_phase self.old (phase.Displaying time)) of fed (view pass) → Went self.new of fed (view pass) (view result.0) result.1 }
    {
        self.phase = Phase::Displaying { time };
        let output = self.objects.at(Place::Output(self.turn));
        let (Some(queue), Some(output)) = (self.objects.queue, output) else {
            unreachable!()
        };
        let Answered { pass, result, .. } = driver.queue_display(
            rt,
            pass,
            queue,
            output.name,
            time,
        );
        let answer = self.was_displayed(result);
        (pass, answer)
    }

    fn was_displayed(&mut self, reply: Result<(), Refusal>) -> Stepped
        requires { self.old.turn < OUTPUTS }
        ensures task { self.new ≡ behind_call self.old (λ _. displayed self.old) reply }
        ensures answer { result ≡ called_answer reply }
    {
        if reply.is_ok() {
            self.turn = (self.turn + 1) % OUTPUTS;
            self.phase = Phase::Asking;
        }
        self.called(reply)
    }
}
