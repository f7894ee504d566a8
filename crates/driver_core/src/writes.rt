// What becomes of the kept objects.
ghost use Rattle.std.specs.Prelude.{◌≤◌, IfOk, IfErr, OnErr};
ghost use Rattle.driver_model.specs.States.{State};
ghost use Rattle.driver_objects.specs.Kept.{kept_of};
ghost use Rattle.driver_core.specs.Added.{Adds, RefusesAdd};
ghost use Rattle.driver_core.specs.Given.{Gives};
ghost use Rattle.driver_core.specs.Roles.{MayAdd, MayDestroy, MayWrite};
ghost use Rattle.driver_core.specs.Stands.{Stands};
ghost use Rattle.driver_core.specs.Written.{Destroys, Writes};

use crate::driver::Core;
use driver_objects::{AddFault, Content};
use vd_status::Refusal;

impl Core {
    // Gives an object other content.
    pub(crate) fn write(&mut self, index: usize, content: Content)
        requires { MayWrite (kept_of self.old.objects) index content }
        ensures { Writes self.old self.new index content }
    {
        self.give(index, content);
    }

    // Puts content in the place of an object's.
    pub(crate) fn give(&mut self, index: usize, content: Content)
        requires { MayWrite (kept_of self.old.objects) index content }
        ensures { Gives self.old self.new index content }
    {
        self.objects.replace(index, content);
    }

    // Makes an object of this kind, and answers its name. It belongs to the device with this place, or, being
    // a device, to itself.
    pub(crate) fn add(
        &mut self,
        kind: u32,
        device: Option<u64>,
        content: Content,
    ) -> Result<u32, Refusal>
        requires kind { kind ≤ 5 }
        requires may { MayAdd (kept_of self.old.objects) kind device content }
        ensures ok { IfOk result (λ name. Adds self.old self.new kind name device content) }
        ensures full { IfErr result (RefusesAdd self.old) }
        ensures err { OnErr result ((d : State) → Stands self.old d → Stands self.new d) }
    {
        match self.objects.add(kind, device, content) {
            Ok(name) => Ok(name),
            Err(AddFault::Full { live, given }) => Err(Refusal::HandlesFull { live, given }),
            Err(AddFault::OutOfMemory) => Err(Refusal::OutOfMemory),
        }
    }

    // Destroys an object that no queue can name, and lets go of it.
    pub(crate) fn destroy(&mut self, index: usize)
        requires { MayDestroy (kept_of self.old.objects) index }
        ensures { Destroys self.old self.new index }
    {
        self.objects.destroy(index);
        self.objects.forget(index);
    }
}
