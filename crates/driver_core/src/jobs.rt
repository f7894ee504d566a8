// What is kept of the jobs that are out.
ghost use Rattle.std.specs.Prelude.{◌≡◌, ℕ, ◌==◌, ◌<◌, ◌++◌, ◌∷◌, [], List, length, map, vec_capacity, vec_len, IfNone, IfSome, OnOk};
ghost use Rattle.std.specs.List.{list_any, remove};
ghost use Rattle.driver_model.specs.States.{State, free_number};
ghost use Rattle.driver_objects.specs.Jobs.{HasJob};
ghost use Rattle.driver_objects.specs.Kept.{kept_of};
ghost use Rattle.driver_core.specs.Jobs.{Forgets, Notes, Targets};
ghost use Rattle.driver_core.specs.Stands.{Stands};

use crate::driver::Core;
use driver_objects::jobs::{OutJob, free_number, job_at, push_reserved, remove_job};
use std::alloc::AllocError;

impl Core {
    // Takes the memory for a further job.
    pub(crate) fn reserve_job(&mut self) -> Result<(), AllocError>
        ensures room { OnOk result (vec_len self.new.jobs < vec_capacity self.new.jobs) }
        ensures objects { self.new.objects ≡ self.old.objects }
        ensures stands { (d : State) → Stands self.old d → Stands self.new d }
    {
        self.jobs.reserve(1)
    }

    // A job for which there is memory is out from now on, and writes one of the kept objects. Its number is
    // answered.
    pub(crate) fn note(&mut self, index: usize) -> u64
        requires there { index < length (kept_of self.old.objects) }
        requires room { vec_len self.old.jobs < vec_capacity self.old.jobs }
        ensures { Notes self.old self.new index result }
    {
        let target = self.object(index).place;
        let number = free_number(&self.jobs);
        push_reserved(&mut self.jobs, OutJob { number, target });
        number
    }

    // Which of the kept objects the job of this number writes.
    pub(crate) fn target_of(&self, number: u64) -> Option<usize>
        ensures targets { Targets self.now number result }
        ensures there { IfSome result (λ index. index < length (kept_of self.now.objects)) }
    {
        match job_at(&self.jobs, number) {
            Some(at) => self.objects.at(self.jobs[at].target),
            None => None,
        }
    }

    // The job of this number isn't out any more.
    pub(crate) fn forget_job(&mut self, number: u64)
        ensures { Forgets self.old self.new number }
    {
        if let Some(at) = job_at(&self.jobs, number) {
            remove_job(&mut self.jobs, at);
        }
    }
}
