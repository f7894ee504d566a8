// Devices (vdpau_x11.h, VdpDeviceCreateX11; vdpau.h, VdpDeviceDestroy and VdpPreemptionCallback).
ghost use Rattle.std.specs.Prelude.{◌≡◌, ◌&&◌, count_by};
ghost use Rattle.driver_objects.specs.Kinds.{is_device};
ghost use Rattle.driver_core.specs.Answered.{Calls};

use crate::answer::CoreAnswer;
use crate::driver::Core;
use driver_model::{Answer, Call, DEVICE, MAX_DEVICES};
use driver_objects::{Content, Device, count_devices, destroy_all, sweep};
use std::alloc::Global;
use vd_status::Refusal;

impl Core {
    /// Makes a device, whose clock stands at 0.
    pub fn device_create(&mut self, _alloc: Global) -> CoreAnswer<u32>
        ensures { Calls self.old self.new Call.DeviceCreate Answer.Name result }
    {
        if count_devices(self.objects.kept()) == MAX_DEVICES as usize {
            return CoreAnswer::Now(Err(Refusal::HandlesFull {
                live: self.objects.live(),
                given: self.objects.made(),
            }));
        }
        let device = Content::Device(Device {
            time: 0,
            is_preempted: false,
        });
        CoreAnswer::Now(self.add(DEVICE, None, device))
    }

    /// Destroys a device, and with it whatever was created on it: its surfaces, decoders, mixers and queues
    /// (VdpDeviceDestroy). This is done on a preempted device too, and refused only where the handle names no
    /// live device.
    pub fn device_destroy(&mut self, device: u32) -> CoreAnswer<()>
        ensures { Calls self.old self.new (Call.DeviceDestroy device) (λ _. Answer.Done) result }
    {
        let Some(index) = self.objects.find(DEVICE, device) else {
            return CoreAnswer::Now(Err(Refusal::InvalidHandle { arg: 0 }));
        };
        let place = self.object(index).place;
        destroy_all(&mut self.objects, &mut self.queues, place);
        sweep(&mut self.objects, &self.queues);
        CoreAnswer::Now(Ok(()))
    }

    /// The display is taken away from a device: from now on each of its calls is refused, but for the end of
    /// the device and those of its jobs.
    pub fn preempt(&mut self, device: u32) -> CoreAnswer<()>
        ensures { Calls self.old self.new (Call.Preempt device) (λ _. Answer.Done) result }
    {
        match self.device(0, device) {
            Ok((index, device)) => {
                self.write(
                    index,
                    Content::Device(Device {
                        is_preempted: true,
                        ..device
                    }),
                );
                CoreAnswer::Now(Ok(()))
            }
            Err(refusal) => CoreAnswer::Now(Err(refusal)),
        }
    }
}
