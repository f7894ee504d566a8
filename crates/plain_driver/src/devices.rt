// Devices (vdpau_x11.h, VdpDeviceCreateX11; vdpau.h, VdpDeviceDestroy and VdpPreemptionCallback).
ghost use Rattle.std.specs.Prelude.{◌≡◌, ℕ, List, Some, IsSome, map};
ghost use Rattle.driver_model.specs.Answers.{reply_with};
ghost use Rattle.driver_model.specs.Clock.{destroyed_on, let_go};
ghost use Rattle.driver_model.specs.Creates.{device_create};
ghost use Rattle.driver_model.specs.Objects.{as_device};
ghost use Rattle.driver_model.specs.States.{content_at};
ghost use Rattle.driver_model.specs.Steps.{Step};
ghost use Rattle.driver_model.specs.declared.calls.Call.TheVariants as call;
ghost use Rattle.driver_model.specs.declared.replies.Answer.TheVariants.{Done, Name};
ghost use Rattle.plain_driver.specs.States.{content_of, device_of, object_of, objects_of, state_of};

use crate::driver::Plain;
use crate::objects::{PlainContent, PlainDevice, PlainObject};
use driver_model::{DEVICE, MAX_DEVICES};
use vd_status::Refusal;

impl Plain {
    /// Makes a device, whose clock stands at 0.
    pub fn device_create(&mut self) -> Result<u32, Refusal>
        ensures { (caller : List ℕ) → Step (state_of self.old) caller call.DeviceCreate (reply_with Name result) (state_of self.new) }
    {
        let place = self.room_for_device()?;
        let content = PlainContent::Device(PlainDevice {
            time: 0,
            is_preempted: false,
        });
        self.add(place, content)
    }

    // The place that a new device gets.
    fn room_for_device(&self) -> Result<usize, Refusal>
        ensures { result ≡ device_create (state_of self.now) }
    {
        self.room(self.live_devices() == MAX_DEVICES as usize)?;
        Ok(self.objects.len())
    }

    /// Destroys a device, and with it all its objects.
    pub fn device_destroy(&mut self, device: u32) -> Result<(), Refusal>
        ensures { (caller : List ℕ) → Step (state_of self.old) caller (call.DeviceDestroy device) (reply_with (λ nothing. Done) result) (state_of self.new) }
    {
        let Some(place) = self.place_of(DEVICE, device) else {
            return Err(Refusal::InvalidHandle { arg: 0 });
        };
        destroy_on(&mut self.objects, place);
        Ok(())
    }

    /// Preempts a device: from now on its calls are refused, but for its end.
    pub fn preempt(&mut self, device: u32) -> Result<(), Refusal>
        ensures { (caller : List ℕ) → Step (state_of self.old) caller (call.Preempt device) (reply_with (λ nothing. Done) result) (state_of self.new) }
    {
        let place = self.device(device)?;
        let time = self.device_in(place).time;
        self.put(
            place,
            PlainContent::Device(PlainDevice {
                time,
                is_preempted: true,
            }),
        );
        Ok(())
    }

    // The device at a place.
    pub(crate) fn device_in(&self, place: usize) -> PlainDevice
        requires { IsSome (content_at (state_of self.now) as_device place) }
        ensures { content_at (state_of self.now) as_device place ≡ Some (device_of result) }
    {
        match &self.objects[place].content {
            PlainContent::Device(device) => *device,
            _ => unreachable!(),
        }
    }
}

// Destroys all objects of the device at this place.
fn destroy_on(objects: &mut Vec<PlainObject>, on: usize)
    ensures { objects_of objects.new.items ≡ map (destroyed_on on) (objects_of objects.old.items) }
{
    for object in objects.iter_mut() {
        destroy_if_on(object, on);
    }
}

fn destroy_if_on(object: &mut PlainObject, on: usize)
    ensures { object_of object.new ≡ destroyed_on on (object_of object.old) }
{
    if object.device == on {
        object.is_live = false;
        let_go(&mut object.content);
    }
}

// A queue loses its entries and what it shows.
pub(crate) fn let_go(content: &mut PlainContent)
    ensures { content_of content.new ≡ let_go (content_of content.old) }
{
    if let PlainContent::Queue(queue) = content {
        queue.entries.clear();
        queue.visible = None;
    }
}
