// How calls find the objects that their handles name.
ghost use Rattle.std.specs.Prelude.{◌≡◌, ◌==◌, ◌&&◌, ℕ, position, option_map};
ghost use Rattle.driver_model.specs.Objects.{as_decoder, as_device, as_mixer, as_output, as_queue, as_video, kind_number};
ghost use Rattle.driver_model.specs.Refusals.{first_handle, further_handle, in_use};
ghost use Rattle.driver_model.specs.States.{is_preempted, named};
ghost use Rattle.plain_driver.specs.Looks.{device_at, further_at, is_called, is_preempted_in, place_of, placed, used_at};
ghost use Rattle.plain_driver.specs.States.{content_of, object_of, state_of};

use crate::driver::Plain;
use crate::objects::{PlainContent, PlainObject};
use driver_model::{
    DECODER, DEVICE, OUTPUT_SURFACE, PRESENTATION_QUEUE, VIDEO_MIXER, VIDEO_SURFACE,
};
use vd_status::Refusal;

// The number of a kind.
pub(crate) fn kind(content: &PlainContent) -> u32
    ensures { result ≡ kind_number (content_of content.now) }
{
    match content {
        PlainContent::Device(_) => DEVICE,
        PlainContent::Video(_) => VIDEO_SURFACE,
        PlainContent::Output(_) => OUTPUT_SURFACE,
        PlainContent::Decoder(_) => DECODER,
        PlainContent::Mixer(_) => VIDEO_MIXER,
        PlainContent::Queue(_) => PRESENTATION_QUEUE,
    }
}

// Whether the object lives, is of this kind, and has this name.
fn is_called(object: &PlainObject, number: u32, name: u32) -> bool
    ensures { result ≡ is_called number name (object_of object.now) }
{
    object.is_live && object.name == name && kind(&object.content) == number
}

// The place of the first object that is called so.
fn place_in(objects: &[PlainObject], number: u32, name: u32) -> Option<usize>
    ensures { result ≡ position (λ object. is_called number name (object_of object)) objects.now }
{
    objects
        .iter()
        .position(|object| is_called(object, number, name))
}

impl Plain {
    pub(crate) fn place_of(&self, number: u32, name: u32) -> Option<usize>
        ensures { result ≡ place_of (state_of self.now) number name }
    {
        place_in(&self.objects, number, name)
    }

    // The place of the device of the object at a place.
    pub(crate) fn device_at(&self, place: usize) -> usize
        ensures { result ≡ device_at (state_of self.now) place }
    {
        match self.objects.get(place) {
            Some(object) => object.device,
            None => 0,
        }
    }

    // Whether the device at a place is preempted.
    fn is_preempted(&self, place: usize) -> bool
        ensures { result ≡ is_preempted (state_of self.now) place }
    {
        match self.objects.get(place) {
            Some(object) => is_preempted_device(&object.content),
            None => false,
        }
    }

    // The object of a handle, whose device isn't preempted.
    fn used(&self, arg: u32, number: u32, name: u32) -> Result<usize, Refusal>
        ensures { result ≡ used_at (state_of self.now) arg (place_of (state_of self.now) number name) }
    {
        let Some(place) = self.place_of(number, name) else {
            return Err(Refusal::InvalidHandle { arg });
        };
        if self.is_preempted(self.device_at(place)) {
            return Err(Refusal::Preempted);
        }
        Ok(place)
    }

    // The object of a further handle, which is of this device.
    fn further(&self, arg: u32, device: usize, number: u32, name: u32) -> Result<usize, Refusal>
        ensures { result ≡ further_at (state_of self.now) arg device (place_of (state_of self.now) number name) }
    {
        let Some(place) = self.place_of(number, name) else {
            return Err(Refusal::InvalidHandle { arg });
        };
        if self.device_at(place) == device {
            Ok(place)
        } else {
            Err(Refusal::DeviceMismatch { arg })
        }
    }

    pub(crate) fn device(&self, name: u32) -> Result<usize, Refusal>
        ensures { result ≡ placed (first_handle (state_of self.now) (named (state_of self.now) as_device name)) }
    {
        self.used(0, DEVICE, name)
    }

    // The same as a handle of this number.
    pub(crate) fn used_video(&self, arg: u32, name: u32) -> Result<usize, Refusal>
        ensures { result ≡ placed (in_use (state_of self.now) arg (named (state_of self.now) as_video name)) }
    {
        self.used(arg, VIDEO_SURFACE, name)
    }

    pub(crate) fn video(&self, name: u32) -> Result<usize, Refusal>
        ensures { result ≡ placed (first_handle (state_of self.now) (named (state_of self.now) as_video name)) }
    {
        self.used_video(0, name)
    }

    // The same as a handle of this number.
    pub(crate) fn used_output(&self, arg: u32, name: u32) -> Result<usize, Refusal>
        ensures { result ≡ placed (in_use (state_of self.now) arg (named (state_of self.now) as_output name)) }
    {
        self.used(arg, OUTPUT_SURFACE, name)
    }

    pub(crate) fn output(&self, name: u32) -> Result<usize, Refusal>
        ensures { result ≡ placed (first_handle (state_of self.now) (named (state_of self.now) as_output name)) }
    {
        self.used_output(0, name)
    }

    // An output surface as a further handle, which is of this device.
    pub(crate) fn further_output(
        &self,
        arg: u32,
        device: usize,
        name: u32,
    ) -> Result<usize, Refusal>
        ensures { result ≡ placed (further_handle arg device (named (state_of self.now) as_output name)) }
    {
        self.further(arg, device, OUTPUT_SURFACE, name)
    }

    // A video surface as a further handle.
    pub(crate) fn further_video(&self, arg: u32, device: usize, name: u32) -> Result<usize, Refusal>
        ensures { result ≡ placed (further_handle arg device (named (state_of self.now) as_video name)) }
    {
        self.further(arg, device, VIDEO_SURFACE, name)
    }

    pub(crate) fn decoder(&self, name: u32) -> Result<usize, Refusal>
        ensures { result ≡ placed (first_handle (state_of self.now) (named (state_of self.now) as_decoder name)) }
    {
        self.used(0, DECODER, name)
    }

    pub(crate) fn mixer(&self, name: u32) -> Result<usize, Refusal>
        ensures { result ≡ placed (first_handle (state_of self.now) (named (state_of self.now) as_mixer name)) }
    {
        self.used(0, VIDEO_MIXER, name)
    }

    // The same as a handle of this number.
    pub(crate) fn used_queue(&self, arg: u32, name: u32) -> Result<usize, Refusal>
        ensures { result ≡ placed (in_use (state_of self.now) arg (named (state_of self.now) as_queue name)) }
    {
        self.used(arg, PRESENTATION_QUEUE, name)
    }

    pub(crate) fn queue(&self, name: u32) -> Result<usize, Refusal>
        ensures { result ≡ placed (first_handle (state_of self.now) (named (state_of self.now) as_queue name)) }
    {
        self.used_queue(0, name)
    }
}

fn is_preempted_device(content: &PlainContent) -> bool
    ensures { result ≡ is_preempted_in (content_of content.now) }
{
    match content {
        PlainContent::Device(device) => device.is_preempted,
        _ => false,
    }
}
