// The clocks of devices: ticks, at which presentation queues show surfaces.
ghost use Rattle.std.specs.Prelude.{◌≡◌, ℕ, List, Some, Err, IfOk, IfErr};
ghost use Rattle.driver_model.specs.Clock.{advance, ticked_at};
ghost use Rattle.driver_model.specs.Objects as model;
ghost use Rattle.driver_model.specs.States.{Found, State, content_at};
ghost use Rattle.driver_objects.specs.Flips.{flipped};
ghost use Rattle.driver_core.specs.Answered.{Calls, UnlessDone};
ghost use Rattle.driver_core.specs.Clocked.{AreDue, ShowsAll, Ticks, is_any_out};
ghost use Rattle.driver_core.specs.Stands.{Stands};

use crate::answer::CoreAnswer;
use crate::driver::Core;
use driver_model::{Answer, Call};
use driver_objects::{Due, Flips, all_due, flips_to, is_due_written, set_time, show_all, sweep};
use std::alloc::{AllocError, Global};
use vd_status::Refusal;

impl Core {
    /// A tick of a device's clock, to this time in nanoseconds: each queue of the device whose oldest entry's time
    /// has come shows that entry's surface. `flips` then holds what they show, in the order in which the queues
    /// were made. Refused is a time that isn't after that of the tick before. The call waits while a job writes a
    /// surface that is to be shown. Where it waits or is refused, `flips` stays as it is.
    pub fn advance(
        &mut self,
        alloc: Global,
        device: u32,
        time: u64,
        flips: &mut Flips,
    ) -> CoreAnswer<()>
        ensures calls { Calls self.old self.new (Call.Advance device time) (λ _. Answer.Flips (flipped flips.new)) result }
        ensures stays { UnlessDone result (flips.new ≡ flips.old) }
    {
        match self.show(alloc, device, time) {
            CoreAnswer::Now(Ok(shown)) => {
                *flips = shown;
                CoreAnswer::Now(Ok(()))
            }
            CoreAnswer::Now(Err(refusal)) => CoreAnswer::Now(Err(refusal)),
            CoreAnswer::Later => CoreAnswer::Later,
        }
    }

    // The tick, and what is shown.
    fn show(&mut self, alloc: Global, device: u32, time: u64) -> CoreAnswer<Flips>
        ensures { Calls self.old self.new (Call.Advance device time) (λ flips. Answer.Flips (flipped flips)) result }
    {
        match self.clock(device, time) {
            Ok(on) => self.advance_on(alloc, on, time),
            Err(refusal) => CoreAnswer::Now(Err(refusal)),
        }
    }

    // The same, on the device at this place.
    fn advance_on(&mut self, alloc: Global, on: u64, time: u64) -> CoreAnswer<Flips>
        ensures { (device : ℕ) → Ticks self.old device time on
            → Calls self.old self.new (Call.Advance device time) (λ flips. Answer.Flips (flipped flips)) result }
    {
        if self.is_tick_held(on, time) {
            return CoreAnswer::Later;
        }
        let Ok(dues) = self.dues(alloc, on, time) else {
            return CoreAnswer::Now(Err(Refusal::OutOfMemory));
        };
        match self.flips(alloc, on, &dues, time) {
            Ok(flips) => {
                self.tick(on, &dues, time);
                CoreAnswer::Now(Ok(flips))
            }
            Err(_) => CoreAnswer::Now(Err(Refusal::OutOfMemory)),
        }
    }

    // The place of the device that a handle names, whose clock stands before this time.
    fn clock(&self, device: u32, time: u64) -> Result<u64, Refusal>
        ensures finds { IfOk result (Ticks self.now device time) }
        ensures refuses { IfErr result (λ refusal. (d : State) → Stands self.now d → advance d device time ≡ Err refusal) }
    {
        let (index, of) = self.device(0, device)?;
        if time <= of.time {
            return Err(Refusal::TimeNotAfter { last: of.time });
        }
        Ok(self.object(index).place)
    }

    // The queues of the device at this place that are due.
    fn dues(&self, alloc: Global, on: u64, time: u64) -> Result<Vec<Due>, AllocError>
        ensures { IfOk result (λ dues. AreDue self.now on time dues.items) }
    {
        all_due(alloc, self.objects.kept(), &self.queues, on, time)
    }

    // Whether a job writes a surface that is to be shown. This takes no memory, so a tick that waits takes none.
    fn is_tick_held(&self, on: u64, time: u64) -> bool
        ensures { (d : State) (dues : List Due) → Stands self.now d → AreDue self.now on time dues → result ≡ is_any_out d dues }
    {
        is_due_written(self.objects.kept(), &self.queues, &self.jobs, on, time)
    }

    // What the queues that are due are to show.
    fn flips(
        &mut self,
        alloc: Global,
        on: u64,
        dues: &[Due],
        time: u64,
    ) -> Result<Flips, AllocError>
        requires { AreDue self.old on time dues.now }
        ensures stands { (d : State) → Stands self.old d → Stands self.new d }
        ensures due { AreDue self.new on time dues.now }
        ensures shows { IfOk result (ShowsAll self.old time dues.now) }
    {
        flips_to(&mut self.objects, alloc, dues, time)
    }

    // Gives the device at this place this time, and has the queues that are due show their surfaces.
    fn tick(&mut self, on: u64, dues: &[Due], time: u64)
        requires { AreDue self.old on time dues.now }
        ensures { (d : State) (of : Found model.Device) → Stands self.old d → of.place ≡ on
            → content_at d model.as_device on ≡ Some of.value → Stands self.new (ticked_at d of time) }
    {
        set_time(&mut self.objects, on, time);
        show_all(&mut self.objects, &mut self.queues, dues, time);
        sweep(&mut self.objects, &self.queues);
    }
}
