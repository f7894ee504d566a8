// Devices (vdpau_x11.h, VdpDeviceCreateX11; vdpau.h, VdpDeviceDestroy and VdpPreemptionCallback).
ghost use Rattle.std.specs.Prelude.{◌≡◌};
ghost use Rattle.driver_model.specs.declared.calls.Call.TheVariants as Call;
ghost use Rattle.driver_model.specs.declared.replies.Answer.TheVariants as Answer;
ghost use Rattle.driver.specs.Made.{Makes};
ghost use Rattle.driver.specs.Passes.{IsOf};

use crate::asked::Ask;
use crate::driver::{Answered, Driver, Pass};
use driver_core::{Core, CoreAnswer};
use std::alloc::Global;
use std::sync::Wait;

#[derive(Drop)]
struct DeviceCreate {
    alloc: Global,
}

impl Ask for DeviceCreate {
    type Value = u32;

    ghost call = { λ ask. Call.DeviceCreate };

    ghost answer = { Answer.Name };

    fn ask(&self, core: &mut Core) -> CoreAnswer<u32> {
        core.device_create(self.alloc)
    }
}

#[derive(Drop)]
struct DeviceDestroy {
    device: u32,
}

impl Ask for DeviceDestroy {
    type Value = ();

    ghost call = { λ ask. Call.DeviceDestroy ask.device };

    ghost answer = { λ _. Answer.Done };

    fn ask(&self, core: &mut Core) -> CoreAnswer<()> {
        core.device_destroy(self.device)
    }
}

#[derive(Drop)]
struct Preempt {
    device: u32,
}

impl Ask for Preempt {
    type Value = ();

    ghost call = { λ ask. Call.Preempt ask.device };

    ghost answer = { λ _. Answer.Done };

    fn ask(&self, core: &mut Core) -> CoreAnswer<()> {
        core.preempt(self.device)
    }
}

impl Driver {
    /// Makes a device, whose clock stands at 0.
    pub fn device_create<R: Wait>(&self, rt: &R, alloc: Global, pass: Pass) -> Answered<u32>
        requires { IsOf pass self.now }
        ensures { Makes pass Call.DeviceCreate Answer.Name result }
    {
        self.make(rt, pass, &DeviceCreate { alloc })
    }

    /// Destroys a device, and with it whatever was created on it: its surfaces, decoders, mixers and queues
    /// (VdpDeviceDestroy). This is done on a preempted device too, and refused only where the handle names no
    /// live device.
    pub fn device_destroy<R: Wait>(&self, rt: &R, pass: Pass, device: u32) -> Answered<()>
        requires { IsOf pass self.now }
        ensures { Makes pass (Call.DeviceDestroy device) (λ _. Answer.Done) result }
    {
        self.make(rt, pass, &DeviceDestroy { device })
    }

    /// The display is taken away from a device: from now on each of its calls is refused, but for the end of
    /// the device and those of its jobs.
    pub fn preempt<R: Wait>(&self, rt: &R, pass: Pass, device: u32) -> Answered<()>
        requires { IsOf pass self.now }
        ensures { Makes pass (Call.Preempt device) (λ _. Answer.Done) result }
    {
        self.make(rt, pass, &Preempt { device })
    }
}
