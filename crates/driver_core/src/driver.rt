// What a driver keeps.
ghost use Rattle.driver_objects.specs.Kept.{kept_of, made_of};
ghost use Rattle.driver_core.specs.Sound.{IsSound};

use driver_objects::Objects;
use driver_objects::jobs::OutJob;
use present_queue::Queues;
use std::alloc::{AllocError, Global};

/// The driver for one caller.
#[derive(Drop)]
pub struct Core {
    pub(crate) objects: Objects,
    pub(crate) queues: Queues,
    // In the order in which they were begun.
    pub(crate) jobs: Vec<OutJob>,
    pub(crate) ghost sound: { IsSound (kept_of objects) (made_of objects) queues jobs.items },
}

impl Core {
    ghost use Rattle.std.specs.Prelude.{IfOk};
    ghost use Rattle.driver_model.specs.States.{empty_state};
    ghost use Rattle.driver_core.specs.Stands.{Stands};

    /// A driver with no objects. It takes the memory of all presentation queues.
    pub fn new(alloc: Global) -> Result<Core, AllocError>
        ensures { IfOk result (λ core. Stands core empty_state) }
    {
        Ok(Core {
            objects: Objects::new(alloc),
            queues: Queues::new(alloc)?,
            jobs: Vec::new(alloc),
        })
    }
}
