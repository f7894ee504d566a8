// What callers wait for.
ghost use Rattle.std.specs.Prelude.{◌≡◌, ℕ, ◌<◌, ◌^◌, List, length, IfSome, IfNone};
ghost use Rattle.driver_model.specs.Answers.{reply_with};
ghost use Rattle.driver_model.specs.Steps.{Step};
ghost use Rattle.driver_model.specs.Waits.{Waits};
ghost use Rattle.driver_model.specs.Wishes.{first_wish, wish_holds};
ghost use Rattle.driver_model.specs.declared.calls.Call.TheVariants as call;
ghost use Rattle.driver_model.specs.declared.replies.Answer.TheVariants.{Holds};
ghost use Rattle.plain_driver.specs.States.{state_of};
ghost use Rattle.plain_driver.specs.Wishing.{held_told};

use crate::driver::Plain;
use driver_model::{OUTPUT_SURFACE, PRESENTATION_QUEUE, VIDEO_SURFACE, Wish};
use vd_status::Refusal;

impl Plain {
    /// Which wish of a list holds: the earliest, if several do.
    pub fn poll(&self, wishes: &[Wish]) -> Result<Option<u32>, Refusal>
        requires { length wishes.now < 2 ^ 32 }
        ensures { (caller : List ℕ) → Step (state_of self.now) caller (call.Poll wishes.now) (reply_with Holds result) (state_of self.now) }
    {
        self.first_wish(wishes)
    }

    /// The same, once one does. None: the call waits.
    pub fn wait_until(&self, wishes: &[Wish]) -> Option<Result<u32, Refusal>>
        requires { length wishes.now < 2 ^ 32 }
        ensures step { IfSome result (λ reply. (caller : List ℕ) → Step (state_of self.now) caller (call.WaitUntil wishes.now) (reply_with held_told reply) (state_of self.now)) }
        ensures waits { IfNone result (Waits (state_of self.now) (call.WaitUntil wishes.now)) }
    {
        match self.first_wish(wishes) {
            Ok(Some(place)) => Some(Ok(place)),
            Ok(None) => None,
            Err(refusal) => Some(Err(refusal)),
        }
    }

    fn first_wish(&self, wishes: &[Wish]) -> Result<Option<u32>, Refusal>
        requires { length wishes.now < 2 ^ 32 }
        ensures { result ≡ first_wish (state_of self.now) wishes.now }
    {
        for (place, wish) in wishes.iter().enumerate() {
            let arg = place as u32;
            if self.wish_holds(arg, *wish)? {
                return Ok(Some(arg));
            }
        }
        Ok(None)
    }

    fn wish_holds(&self, arg: u32, wish: Wish) -> Result<bool, Refusal>
        ensures { result ≡ wish_holds (state_of self.now) arg wish }
    {
        match wish {
            Wish::OutputIdle { surface } => {
                let place = self.used_output(arg, surface)?;
                Ok(self.is_idle_at(place))
            }
            Wish::VideoHome { surface } => {
                let place = self.used_video(arg, surface)?;
                Ok(!self.is_out(place))
            }
            Wish::OutputHome { surface } => {
                let place = self.used_output(arg, surface)?;
                Ok(!self.is_out(place))
            }
            Wish::PromisePast { queue, time } => {
                let place = self.used_queue(arg, queue)?;
                Ok(time < self.queue_in(place).promise)
            }
        }
    }
}
