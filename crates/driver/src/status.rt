// How output surfaces stand to the presentation queues (vdpau.h, VdpPresentationQueueStatus).
ghost use Rattle.std.specs.Prelude.{◌≡◌};
ghost use Rattle.driver_model.specs.declared.calls.Call.TheVariants as Call;
ghost use Rattle.driver_model.specs.declared.replies.Answer.TheVariants as Answer;
ghost use Rattle.driver.specs.Made.{Makes};
ghost use Rattle.driver.specs.Passes.{IsOf};

use crate::asked::Ask;
use crate::driver::{Answered, Driver, Pass};
use driver_core::{Core, CoreAnswer};
use driver_model::Shown;
use std::sync::Wait;

#[derive(Drop)]
struct QueryStatus {
    queue: u32,
    surface: u32,
}

impl Ask for QueryStatus {
    type Value = Shown;

    ghost call = { λ ask. Call.QueryStatus ask.queue ask.surface };

    ghost answer = { Answer.Status };

    fn ask(&self, core: &mut Core) -> CoreAnswer<Shown> {
        core.query_status(self.queue, self.surface)
    }
}

#[derive(Drop)]
struct BlockUntilIdle {
    queue: u32,
    surface: u32,
}

impl Ask for BlockUntilIdle {
    type Value = u64;

    ghost call = { λ ask. Call.BlockUntilIdle ask.queue ask.surface };

    ghost answer = { Answer.Time };

    fn ask(&self, core: &mut Core) -> CoreAnswer<u64> {
        core.block_until_idle(self.queue, self.surface)
    }
}

impl Driver {
    /// How an output surface stands to the queues of its device, and when this queue showed it last, in
    /// nanoseconds: 0 where it never did, or another queue has done so since
    /// (VdpPresentationQueueQuerySurfaceStatus).
    pub fn query_status<R: Wait>(
        &self,
        rt: &R,
        pass: Pass,
        queue: u32,
        surface: u32,
    ) -> Answered<Shown>
        requires { IsOf pass self.now }
        ensures { Makes pass (Call.QueryStatus queue surface) Answer.Status result }
    {
        self.make(rt, pass, &QueryStatus { queue, surface })
    }

    /// Waits until no queue shows the output surface or has an entry of it, and answers when this queue showed
    /// it last, as `query_status` does (VdpPresentationQueueBlockUntilSurfaceIdle).
    pub fn block_until_idle<R: Wait>(
        &self,
        rt: &R,
        pass: Pass,
        queue: u32,
        surface: u32,
    ) -> Answered<u64>
        requires { IsOf pass self.now }
        ensures { Makes pass (Call.BlockUntilIdle queue surface) Answer.Time result }
    {
        self.make(rt, pass, &BlockUntilIdle { queue, surface })
    }
}
