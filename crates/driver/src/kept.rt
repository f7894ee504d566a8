// How much a driver keeps.
ghost use Rattle.std.specs.Prelude.{◌≡◌};
ghost use Rattle.driver_model.specs.declared.calls.Call.TheVariants as Call;
ghost use Rattle.driver_model.specs.declared.replies.Answer.TheVariants as Answer;
ghost use Rattle.driver.specs.Made.{Makes};
ghost use Rattle.driver.specs.Passes.{IsOf};

use crate::asked::Ask;
use crate::driver::{Answered, Driver, Pass};
use driver_core::{Core, CoreAnswer};
use driver_model::KeptCounts;
use std::sync::Wait;

#[derive(Drop)]
struct CountKept;

impl Ask for CountKept {
    type Value = KeptCounts;

    ghost call = { λ ask. Call.Kept };

    ghost answer = { Answer.Counts };

    fn ask(&self, core: &mut Core) -> CoreAnswer<KeptCounts> {
        core.kept()
    }
}

impl Driver {
    /// How many video and output surfaces and how many entries of presentation queues are kept. A destroyed
    /// surface counts while a live queue has an entry of it or shows it. This is never refused and never waits.
    pub fn kept<R: Wait>(&self, rt: &R, pass: Pass) -> Answered<KeptCounts>
        requires { IsOf pass self.now }
        ensures { Makes pass Call.Kept Answer.Counts result }
    {
        self.make(rt, pass, &CountKept)
    }
}
