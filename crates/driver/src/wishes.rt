// What callers wait for.
ghost use Rattle.std.specs.Prelude.{◌<◌, ◌^◌, Some, length};
ghost use Rattle.driver_model.specs.declared.calls.Call.TheVariants as Call;
ghost use Rattle.driver_model.specs.declared.replies.Answer.TheVariants as Answer;
ghost use Rattle.driver.specs.Made.{Makes};
ghost use Rattle.driver.specs.Passes.{IsOf};

use crate::asked::Ask;
use crate::driver::{Answered, Driver, Pass};
use driver_core::{Core, CoreAnswer};
use driver_model::Wish;
use std::sync::Wait;

#[derive(Drop)]
struct Poll<'a> {
    wishes: &'a [Wish],
    ghost some: { 0 < length wishes.now },
    ghost few: { length wishes.now < 2 ^ 32 },
}

impl<'a> Ask for Poll<'a> {
    type Value = Option<u32>;

    ghost call = { λ ask. Call.Poll ask.wishes.now };

    ghost answer = { Answer.Holds };

    fn ask(&self, core: &mut Core) -> CoreAnswer<Option<u32>> {
        core.poll(self.wishes)
    }
}

#[derive(Drop)]
struct WaitUntil<'a> {
    wishes: &'a [Wish],
    ghost some: { 0 < length wishes.now },
    ghost few: { length wishes.now < 2 ^ 32 },
}

impl<'a> Ask for WaitUntil<'a> {
    type Value = u32;

    ghost call = { λ ask. Call.WaitUntil ask.wishes.now };

    ghost answer = { λ place. Answer.Holds (Some place) };

    fn ask(&self, core: &mut Core) -> CoreAnswer<u32> {
        core.wait_until(self.wishes)
    }
}

impl Driver {
    /// Which wish of a list holds, by its number in the list, counted from 0: the earliest, if several do, and
    /// `None` if none does. A wish whose object can't be used before one holds is refused: `InvalidHandle`
    /// carries the wish's number, and `Preempted` is said of its object's device.
    pub fn poll<R: Wait>(&self, rt: &R, pass: Pass, wishes: &[Wish]) -> Answered<Option<u32>>
        requires of { IsOf pass self.now }
        requires some { 0 < length wishes.now }
        requires few { length wishes.now < 2 ^ 32 }
        ensures { Makes pass (Call.Poll wishes.now) Answer.Holds result }
    {
        self.make(rt, pass, &Poll { wishes })
    }

    /// Waits until a wish of a list holds, and answers which one. Wishes are refused as by `poll`.
    pub fn wait_until<R: Wait>(&self, rt: &R, pass: Pass, wishes: &[Wish]) -> Answered<u32>
        requires of { IsOf pass self.now }
        requires some { 0 < length wishes.now }
        requires few { length wishes.now < 2 ^ 32 }
        ensures { Makes pass (Call.WaitUntil wishes.now) (λ place. Answer.Holds (Some place)) result }
    {
        self.make(rt, pass, &WaitUntil { wishes })
    }
}
