// Presentation queues (vdpau.h, VdpPresentationQueue..).
ghost use Rattle.std.specs.Prelude.{◌≡◌};
ghost use Rattle.driver_model.specs.declared.calls.Call.TheVariants as Call;
ghost use Rattle.driver_model.specs.declared.replies.Answer.TheVariants as Answer;
ghost use Rattle.driver.specs.Made.{Makes};
ghost use Rattle.driver.specs.Passes.{IsOf};

use crate::asked::Ask;
use crate::driver::{Answered, Driver, Pass};
use driver_core::{Core, CoreAnswer};
use std::alloc::Global;
use std::sync::Wait;

#[derive(Drop)]
struct QueueCreate {
    alloc: Global,
    device: u32,
    window: u32,
}

impl Ask for QueueCreate {
    type Value = u32;

    ghost call = { λ ask. Call.QueueCreate ask.device ask.window };

    ghost answer = { Answer.Name };

    fn ask(&self, core: &mut Core) -> CoreAnswer<u32> {
        core.queue_create(self.alloc, self.device, self.window)
    }
}

#[derive(Drop)]
struct QueueDestroy {
    queue: u32,
}

impl Ask for QueueDestroy {
    type Value = ();

    ghost call = { λ ask. Call.QueueDestroy ask.queue };

    ghost answer = { λ _. Answer.Done };

    fn ask(&self, core: &mut Core) -> CoreAnswer<()> {
        core.queue_destroy(self.queue)
    }
}

#[derive(Drop)]
struct QueueDisplay {
    queue: u32,
    surface: u32,
    earliest: u64,
}

impl Ask for QueueDisplay {
    type Value = ();

    ghost call = { λ ask. Call.QueueDisplay ask.queue ask.surface ask.earliest };

    ghost answer = { λ _. Answer.Done };

    fn ask(&self, core: &mut Core) -> CoreAnswer<()> {
        core.queue_display(self.queue, self.surface, self.earliest)
    }
}

#[derive(Drop)]
struct GetTime {
    queue: u32,
}

impl Ask for GetTime {
    type Value = u64;

    ghost call = { λ ask. Call.GetTime ask.queue };

    ghost answer = { Answer.Time };

    fn ask(&self, core: &mut Core) -> CoreAnswer<u64> {
        core.get_time(self.queue)
    }
}

#[derive(Drop)]
struct Promise {
    queue: u32,
    time: u64,
}

impl Ask for Promise {
    type Value = ();

    ghost call = { λ ask. Call.Promise ask.queue ask.time };

    ghost answer = { λ _. Answer.Done };

    fn ask(&self, core: &mut Core) -> CoreAnswer<()> {
        core.promise(self.queue, self.time)
    }
}

impl Driver {
    /// Makes a presentation queue that shows in this window, and answers its name
    /// (VdpPresentationQueueCreate). Several queues may show in one window. Refused is a queue where 64 live, or
    /// where there is no room for a further object.
    pub fn queue_create<R: Wait>(
        &self,
        rt: &R,
        alloc: Global,
        pass: Pass,
        device: u32,
        window: u32,
    ) -> Answered<u32>
        requires { IsOf pass self.now }
        ensures { Makes pass (Call.QueueCreate device window) Answer.Name result }
    {
        self.make(
            rt,
            pass,
            &QueueCreate {
                alloc,
                device,
                window,
            },
        )
    }

    /// Destroys a queue: its entries and its visible surface are let go (VdpPresentationQueueDestroy).
    pub fn queue_destroy<R: Wait>(&self, rt: &R, pass: Pass, queue: u32) -> Answered<()>
        requires { IsOf pass self.now }
        ensures { Makes pass (Call.QueueDestroy queue) (λ _. Answer.Done) result }
    {
        self.make(rt, pass, &QueueDestroy { queue })
    }

    /// Has the queue show an output surface of its device behind all that waits there, and not before this
    /// time, in nanoseconds (VdpPresentationQueueDisplay). Refused are, after the two handles: a queue on which
    /// 64 surfaces wait, and a time before the queue's promise.
    pub fn queue_display<R: Wait>(
        &self,
        rt: &R,
        pass: Pass,
        queue: u32,
        surface: u32,
        earliest: u64,
    ) -> Answered<()>
        requires { IsOf pass self.now }
        ensures { Makes pass (Call.QueueDisplay queue surface earliest) (λ _. Answer.Done) result }
    {
        self.make(
            rt,
            pass,
            &QueueDisplay {
                queue,
                surface,
                earliest,
            },
        )
    }

    /// The time at which the clock of the queue's device stands, in nanoseconds: that of its last tick
    /// (VdpPresentationQueueGetTime).
    pub fn get_time<R: Wait>(&self, rt: &R, pass: Pass, queue: u32) -> Answered<u64>
        requires { IsOf pass self.now }
        ensures { Makes pass (Call.GetTime queue) Answer.Time result }
    {
        self.make(rt, pass, &GetTime { queue })
    }

    /// Promises that nothing is displayed on the queue any more for an earlier time than this, in
    /// nanoseconds. A promise never falls.
    pub fn promise<R: Wait>(&self, rt: &R, pass: Pass, queue: u32, time: u64) -> Answered<()>
        requires { IsOf pass self.now }
        ensures { Makes pass (Call.Promise queue time) (λ _. Answer.Done) result }
    {
        self.make(rt, pass, &Promise { queue, time })
    }
}
