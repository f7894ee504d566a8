// How much a driver keeps.
ghost use Rattle.std.specs.Prelude.{◌≡◌, count_by};
ghost use Rattle.driver_objects.specs.Counted.{has_picture};
ghost use Rattle.driver_core.specs.Answered.{Calls};

use crate::answer::CoreAnswer;
use crate::driver::Core;
use driver_model::{Answer, Call, KeptCounts};
use driver_objects::count_surfaces;

impl Core {
    /// How many video and output surfaces and how many entries of presentation queues are kept. A destroyed
    /// surface counts while a live queue has an entry of it or shows it. This is never refused and never waits.
    pub fn kept(&self) -> CoreAnswer<KeptCounts>
        ensures { Calls self.now self.now Call.Kept Answer.Counts result }
    {
        CoreAnswer::Now(Ok(KeptCounts {
            surfaces: count_surfaces(self.objects.kept()) as u32,
            entries: self.queues.linked(),
        }))
    }
}
