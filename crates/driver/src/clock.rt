// The clocks of devices: ticks, at which presentation queues show surfaces.
ghost use Rattle.std.specs.Prelude.{◌≡◌, ◌∷◌, ◌++◌, [], Some};
ghost use Rattle.device_lock.specs.Passes.{held_lock, held_value, held_view, lock_id};
ghost use Rattle.driver_model.specs.Answers.{reply_with};
ghost use Rattle.driver_model.specs.declared.calls.Call.TheVariants as Call;
ghost use Rattle.driver_model.specs.declared.replies.Answer.TheVariants as Answer;
ghost use Rattle.driver_objects.specs.Flips.{flipped};
ghost use Rattle.driver.specs.Made.{IfRefused, Logs, Makes, entry_of};
ghost use Rattle.driver.specs.Passes.{IsOf};
ghost use Rattle.driver.specs.Standing.{StandsAt};

use crate::driver::{Answered, Driver, Pass};
use crate::kernel::Kernel;
use device_lock::{Held, Names};
use driver_core::{CoreAnswer, Flips};
use driver_model::Item;
use std::alloc::Global;
use std::marker::Brand;
use std::sync::Wait;
use vd_status::Refusal;

impl Driver {
    /// A tick of a device's clock, to this time in nanoseconds: each queue of the device whose oldest entry's time
    /// has come shows that entry's surface. `flips` then holds what they show, in the order in which the queues
    /// were made. Refused is a time that isn't after that of the tick before, and then `flips` stays as it is. The
    /// call waits while a job writes a surface that is to be shown.
    pub fn advance<R: Wait>(
        &self,
        rt: &R,
        alloc: Global,
        pass: Pass,
        device: u32,
        time: u64,
        flips: &mut Flips,
    ) -> Answered<()>
        requires { IsOf pass self.now }
        ensures makes { Makes pass (Call.Advance device time) (λ _. Answer.Flips (flipped flips.new)) result }
        ensures stays { IfRefused result.result (flips.new ≡ flips.old) }
    {
        let mut pass = pass;
        for _ in rt.forever() {
            let mut held = self.lock.take(rt, pass.token);
            let seen = self.lock.logged();
            match held.value().core.advance(alloc, device, time, flips) {
                CoreAnswer::Now(reply) => {
                    return self.log_flips::<Brand>(held, device, time, flips, reply);
                }
                CoreAnswer::Later => {
                    let token = held.give_back(&self.lock);
                    pass = Pass { token };
                    self.lock.rest(rt, seen);
                }
            }
        }
        unreachable!()
    }

    // Logs the tick, which was made or refused, and ends the turn. `W` names the item.
    fn log_flips<W: Names<Item>>(
        &self,
        held: Held<Kernel>,
        _device: u32,
        _time: u64,
        _flips: &Flips,
        reply: Result<(), Refusal>,
    ) -> Answered<()>
        requires lock { held_lock held ≡ lock_id self.now.lock }
        requires item { W.item ≡ Some (entry_of (held_view held) (Call.Advance _device _time) (reply_with (λ _. Answer.Flips (flipped _flips.now)) reply)) }
        requires stands { StandsAt (held_value held).core ((held_view held).seen ++ entry_of (held_view held) (Call.Advance _device _time) (reply_with (λ _. Answer.Flips (flipped _flips.now)) reply) ∷ []) }
        ensures result { result.result ≡ reply }
        ensures logs { Logs (held_lock held) (held_view held) (entry_of (held_view held) (Call.Advance _device _time) (reply_with (λ _. Answer.Flips (flipped _flips.now)) reply)) result.pass result.place }
    {
        let (logged, place) = held.log::<W>(&self.lock);
        let token = logged.give_back(&self.lock);
        Answered {
            pass: Pass { token },
            place,
            result: reply,
        }
    }
}
