// What the calls that begin and end jobs have in common.
ghost use Rattle.std.specs.Prelude.{◌≡◌, ◌∷◌, ◌++◌, [], IfSome, IsSome};
ghost use Rattle.device_lock.specs.Passes.{held_lock, held_value, held_view, lock_id};
ghost use Rattle.driver_model.specs.Passes.{caller_of};
ghost use Rattle.driver.specs.Made.{Logs};
ghost use Rattle.driver.specs.Standing.{StandsAt};

use crate::driver::{Driver, Pass};
use crate::kernel::Kernel;
use device_lock::{Held, Names};
use driver_model::Item;

impl Driver {
    // Logs the item that `W` names, made of this call and what became of it, and ends the turn. Its place is answered.
    pub(crate) fn log_item<A, B, W: Names<Item>>(
        &self,
        held: Held<Kernel>,
        _call: &A,
        _comes_to: &B,
    ) -> (Pass, u64)
        requires lock { held_lock held ≡ lock_id self.now.lock }
        requires item { IsSome W.item }
        requires own { IfSome W.item (λ item. caller_of item ≡ (held_view held).number) }
        requires stands { IfSome W.item (λ item. StandsAt (held_value held).core ((held_view held).seen ++ item ∷ [])) }
        ensures { IfSome W.item (λ item. Logs (held_lock held) (held_view held) item result.0 result.1) }
    {
        let (logged, place) = held.log::<W>(&self.lock);
        let token = logged.give_back(&self.lock);
        (Pass { token }, place)
    }
}
