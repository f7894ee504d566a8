// What callers wait for.
ghost use Rattle.std.specs.Prelude.{◌≡◌, ◌<◌, ◌*◌, ◌^◌, Ok, Some, length, not};
ghost use Rattle.driver_model.specs.States as model;
ghost use Rattle.driver_model.specs.Wishes.{first_wish, wish_holds};
ghost use Rattle.driver_objects.specs.Kept.{kept_of};
ghost use Rattle.driver_core.specs.Answered.{Calls};
ghost use Rattle.driver_core.specs.Standing.{OfPlace};
ghost use Rattle.driver_core.specs.Stands.{Stands};

use crate::answer::CoreAnswer;
use crate::driver::Core;
use driver_model::{Answer, Call, OUTPUT_SURFACE, VIDEO_SURFACE, Wish};
use vd_status::Refusal;

impl Core {
    /// Which wish of a list holds, by its number in the list, counted from 0: the earliest, if several do, and
    /// `None` if none does. A wish whose object can't be used before one holds is refused: `InvalidHandle`
    /// carries the wish's number, and `Preempted` is said of its object's device.
    pub fn poll(&mut self, wishes: &[Wish]) -> CoreAnswer<Option<u32>>
        requires some { 0 < length wishes.now }
        requires few { length wishes.now < 2 ^ 32 }
        ensures { Calls self.old self.new (Call.Poll wishes.now) Answer.Holds result }
    {
        CoreAnswer::Now(self.first_wish(wishes))
    }

    /// Waits until a wish of a list holds, and answers which one. Wishes are refused as by `poll`.
    pub fn wait_until(&mut self, wishes: &[Wish]) -> CoreAnswer<u32>
        requires some { 0 < length wishes.now }
        requires few { length wishes.now < 2 ^ 32 }
        ensures { Calls self.old self.new (Call.WaitUntil wishes.now) (λ place. Answer.Holds (Some place)) result }
    {
        match self.first_wish(wishes) {
            Ok(Some(place)) => CoreAnswer::Now(Ok(place)),
            Ok(None) => CoreAnswer::Later,
            Err(refusal) => CoreAnswer::Now(Err(refusal)),
        }
    }

    // The number of the first wish that holds.
    fn first_wish(&self, wishes: &[Wish]) -> Result<Option<u32>, Refusal>
        requires { length wishes.now < 2 ^ 32 }
        ensures { (d : model.State) → Stands self.now d → result ≡ first_wish d wishes.now }
    {
        for (place, wish) in wishes.iter().enumerate() {
            let place = place as u32;
            match self.wish_holds(place, *wish) {
                Ok(true) => return Ok(Some(place)),
                Ok(false) => {}
                Err(refusal) => return Err(refusal),
            }
        }
        Ok(None)
    }

    // Whether a wish with this number holds.
    fn wish_holds(&self, arg: u32, wish: Wish) -> Result<bool, Refusal>
        ensures { (d : model.State) → Stands self.now d → result ≡ wish_holds d arg wish }
    {
        match wish {
            Wish::OutputIdle { surface } => {
                let index = self.in_use(arg, OUTPUT_SURFACE, surface)?;
                Ok(self.is_idle(index))
            }
            Wish::VideoHome { surface } => {
                let index = self.in_use(arg, VIDEO_SURFACE, surface)?;
                Ok(self.is_home(index))
            }
            Wish::OutputHome { surface } => {
                let index = self.in_use(arg, OUTPUT_SURFACE, surface)?;
                Ok(self.is_home(index))
            }
            Wish::PromisePast { queue, time } => {
                let (_, queue) = self.queue(arg, queue)?;
                Ok(time < self.queues.promised(queue.number))
            }
        }
    }

    // Whether no job writes an object.
    fn is_home(&self, index: usize) -> bool
        requires { index < length (kept_of self.now.objects) }
        ensures { OfPlace self.now index (λ d place. result ≡ not (model.is_out d place)) }
    {
        !self.is_out(self.object(index).place)
    }
}
