// How a call is made: in a turn of the lock, by a question to the core. Where the core answers, the call is logged
// and the turn ends. Where the call has to wait, the core is given back as it was, nothing is logged, and the
// caller rests until somebody has logged something.
ghost use Rattle.std.specs.Prelude.{◌≡◌, ◌∷◌, ◌++◌, [], Some, length};
ghost use Rattle.device_lock.specs.Passes.{held_lock, held_value, held_view, lock_id, pass_lock};
ghost use Rattle.driver_model.specs.Answers.{reply_with};
ghost use Rattle.driver_model.specs.declared.replies.Answer.TheVariants as Answer;
ghost use Rattle.driver.specs.Made.{IfRefused, Logs, Makes, entry_of};
ghost use Rattle.driver.specs.Passes.{IsOf, view};
ghost use Rattle.driver.specs.Standing.{StandsAt};

use crate::asked::{Ask, Fill};
use crate::driver::{Answered, Driver, Pass};
use crate::kernel::Kernel;
use device_lock::{Held, Names};
use driver_core::CoreAnswer;
use driver_model::Item;
use std::marker::Brand;
use std::sync::Wait;
use vd_status::Refusal;

impl Driver {
    // Makes the call, and waits while it has to.
    pub(crate) fn make<A: Ask, R: Wait>(&self, rt: &R, pass: Pass, ask: &A) -> Answered<A::Value>
        requires { IsOf pass self.now }
        ensures { Makes pass (A.call ask.now) A.answer result }
    {
        let mut pass = pass;
        for _ in rt.forever() {
            let mut held = self.lock.take(rt, pass.token);
            let seen = self.lock.logged();
            match ask.ask(&mut held.value().core) {
                CoreAnswer::Now(reply) => return self.log::<A, Brand>(held, ask, reply),
                CoreAnswer::Later => {
                    let token = held.give_back(&self.lock);
                    pass = Pass { token };
                    self.lock.rest(rt, seen);
                }
            }
        }
        unreachable!()
    }

    // The same of a call that fills a buffer. Where it is refused, the buffer is as it was.
    pub(crate) fn fill<F: Fill, R: Wait>(
        &self,
        rt: &R,
        pass: Pass,
        fill: &F,
        out: &mut [u8],
    ) -> Answered<()>
        requires { IsOf pass self.now }
        ensures makes { Makes pass (F.call fill.now (length out.old)) (λ _. Answer.Bytes out.new) result }
        ensures stays { IfRefused result.result (out.new ≡ out.old) }
    {
        let count = out.len();
        let mut pass = pass;
        for _ in rt.forever() {
            let mut held = self.lock.take(rt, pass.token);
            let seen = self.lock.logged();
            match fill.fill(&mut held.value().core, out) {
                CoreAnswer::Now(reply) => {
                    return self.log_bytes::<F, Brand>(held, fill, count, out, reply);
                }
                CoreAnswer::Later => {
                    let token = held.give_back(&self.lock);
                    pass = Pass { token };
                    self.lock.rest(rt, seen);
                }
            }
        }
        unreachable!()
    }

    // Logs the call, which the core has answered, and ends the turn. `W` names the item.
    fn log<A: Ask, W: Names<Item>>(
        &self,
        held: Held<Kernel>,
        _ask: &A,
        reply: Result<A::Value, Refusal>,
    ) -> Answered<A::Value>
        requires lock { held_lock held ≡ lock_id self.now.lock }
        requires item { W.item ≡ Some (entry_of (held_view held) (A.call _ask.now) (reply_with A.answer reply)) }
        requires stands { StandsAt (held_value held).core ((held_view held).seen ++ entry_of (held_view held) (A.call _ask.now) (reply_with A.answer reply) ∷ []) }
        ensures result { result.result ≡ reply }
        ensures logs { Logs (held_lock held) (held_view held) (entry_of (held_view held) (A.call _ask.now) (reply_with A.answer reply)) result.pass result.place }
    {
        let (logged, place) = held.log::<W>(&self.lock);
        let token = logged.give_back(&self.lock);
        Answered {
            pass: Pass { token },
            place,
            result: reply,
        }
    }
    // The same of a call that has filled a buffer of this length, or was refused.
    fn log_bytes<F: Fill, W: Names<Item>>(
        &self,
        held: Held<Kernel>,
        _fill: &F,
        _count: usize,
        _out: &[u8],
        reply: Result<(), Refusal>,
    ) -> Answered<()>
        requires lock { held_lock held ≡ lock_id self.now.lock }
        requires item { W.item ≡ Some (entry_of (held_view held) (F.call _fill.now _count) (reply_with (λ _. Answer.Bytes _out.now) reply)) }
        requires stands { StandsAt (held_value held).core ((held_view held).seen ++ entry_of (held_view held) (F.call _fill.now _count) (reply_with (λ _. Answer.Bytes _out.now) reply) ∷ []) }
        ensures result { result.result ≡ reply }
        ensures logs { Logs (held_lock held) (held_view held) (entry_of (held_view held) (F.call _fill.now _count) (reply_with (λ _. Answer.Bytes _out.now) reply)) result.pass result.place }
    {
        let (logged, place) = held.log::<W>(&self.lock);
        let token = logged.give_back(&self.lock);
        Answered {
            pass: Pass { token },
            place,
            result: reply,
        }
    }
}
