// Handles: what they name, and the refusals where they name nothing that can be used.
ghost use Rattle.std.specs.Prelude.{◌≡◌, ◌<◌, ◌==◌, true, length, slice_get, Some, IfOk, IfErr};
ghost use Rattle.std.specs.List.{list_any};
ghost use Rattle.driver_model.specs.Objects.{DeviceObject, as_device};
ghost use Rattle.driver_model.specs.States.{State, is_out};
ghost use Rattle.driver_objects.specs.Contents.{HasContent};
ghost use Rattle.driver_objects.specs.Kept.{kept_of};
ghost use Rattle.driver_objects.specs.Kinds.{is_device, is_device_at};
ghost use Rattle.driver_core.specs.Found.{Finds, IsOn, Refuses};
ghost use Rattle.driver_core.specs.Looked.{IsFurther, IsInUse};
ghost use Rattle.driver_core.specs.Stands.{Stands};

use crate::driver::Core;
use driver_model::DEVICE;
use driver_objects::jobs::writes;
use driver_objects::kinds::{device_at, device_in};
use driver_objects::{Content, Device, Object};
use vd_status::Refusal;

impl Core {
    // Which of the kept objects is the live one of this kind and name, where its device isn't preempted. The
    // handle has this number among those of the call.
    pub(crate) fn in_use(&self, arg: u32, kind: u32, name: u32) -> Result<usize, Refusal>
        ensures { IsInUse (kept_of self.now.objects) arg kind name result }
    {
        let Some(index) = self.objects.find(kind, name) else {
            return Err(Refusal::InvalidHandle { arg });
        };
        let device = device_at(&self.objects, self.objects.kept()[index].device);
        if device.is_preempted {
            return Err(Refusal::Preempted);
        }
        Ok(index)
    }

    // Which of the kept objects is the live one of this kind and name, where it is of the device with this place
    // among all objects ever made.
    pub(crate) fn further(
        &self,
        arg: u32,
        kind: u32,
        name: u32,
        device: u64,
    ) -> Result<usize, Refusal>
        ensures { IsFurther (kept_of self.now.objects) arg kind name device result }
    {
        let Some(index) = self.objects.find(kind, name) else {
            return Err(Refusal::InvalidHandle { arg });
        };
        if self.objects.kept()[index].device != device {
            return Err(Refusal::DeviceMismatch { arg });
        }
        Ok(index)
    }

    // One of the kept objects.
    pub(crate) fn object(&self, index: usize) -> &Object
        requires { index < length (kept_of self.now.objects) }
        ensures { slice_get (kept_of self.now.objects) index ≡ Some result.now }
    {
        &self.objects.kept()[index]
    }

    // What one of the kept objects has.
    pub(crate) fn content(&self, index: usize) -> &Content
        requires { index < length (kept_of self.now.objects) }
        ensures { HasContent (kept_of self.now.objects) index result.now }
    {
        &self.objects.kept()[index].content
    }

    // The place of the device that the first handle of a call names.
    pub(crate) fn on_device(&self, name: u32) -> Result<u64, Refusal>
        ensures live { IfOk result (λ place. list_any (is_device_at place) (kept_of self.now.objects) ≡ true) }
        ensures finds { IfOk result (IsOn self.now name) }
        ensures refuses { IfErr result (Refuses as_device DeviceObject self.now 0 name) }
    {
        match self.in_use(0, DEVICE, name) {
            Ok(index) => Ok(self.object(index).place),
            Err(refusal) => Err(refusal),
        }
    }

    // The device that a handle names: which of the kept objects it is, and what it has.
    pub(crate) fn device(&self, arg: u32, name: u32) -> Result<(usize, Device), Refusal>
        ensures finds { IfOk result (λ p. Finds as_device DeviceObject self.now arg name p.0 (Content.Device p.1)) }
        ensures has { IfOk result (λ p. HasContent (kept_of self.now.objects) p.0 (Content.Device p.1)) }
        ensures refuses { IfErr result (Refuses as_device DeviceObject self.now arg name) }
    {
        match self.in_use(arg, DEVICE, name) {
            Ok(index) => Ok((index, device_in(self.content(index)))),
            Err(refusal) => Err(refusal),
        }
    }

    // Whether some job writes the object with this place among all objects ever made.
    pub(crate) fn is_out(&self, place: u64) -> bool
        ensures { (d : State) → Stands self.now d → result ≡ is_out d place }
    {
        writes(&self.jobs, place)
    }
}
