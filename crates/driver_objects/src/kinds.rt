// What content of a known kind has.
ghost use Rattle.std.specs.Prelude.{◌≡◌, true, Some, option_map};
ghost use Rattle.std.specs.List.{list_any};
ghost use Rattle.std.specs.Option.{option_map_or};
ghost use Rattle.driver_model.specs.Presented.{time_if_on};
ghost use Rattle.driver_model.specs.declared.numbers.TheConstants as number;
ghost use Rattle.driver_objects.specs.Contents.{HasDevice, flip_of};
ghost use Rattle.driver_objects.specs.Kept.{kept_of};
ghost use Rattle.driver_objects.specs.Kinds.{holder_of, is_device, is_device_at, is_output, is_queue, kind_number};

use crate::content::{Content, Device, LastFlip, OutputSurface, PresentationQueue};
use crate::objects::Objects;

/// What the live device with this place among all objects ever made has.
pub fn device_at(objects: &Objects, place: u64) -> Device
    requires { list_any (is_device_at place) (kept_of objects.now) ≡ true }
    ensures { HasDevice (kept_of objects.now) place result }
{
    match objects.at(place) {
        Some(index) => device_in(&objects.kept()[index].content),
        None => unreachable!(),
    }
}

/// What a device has.
pub fn device_in(content: &Content) -> Device
    requires { is_device content.now ≡ true }
    ensures { content.now ≡ Content.Device result }
{
    match content {
        Content::Device(device) => *device,
        _ => unreachable!(),
    }
}

/// What a queue has.
pub fn queue_in(content: &Content) -> PresentationQueue
    requires { is_queue content.now ≡ true }
    ensures { content.now ≡ Content.Queue result }
{
    match content {
        Content::Queue(queue) => *queue,
        _ => unreachable!(),
    }
}

/// The holder of an output surface.
pub fn holder_in(content: &Content) -> u32
    requires { is_output content.now ≡ true }
    ensures { holder_of content.now ≡ Some result }
{
    match content {
        Content::Output(surface) => surface.holder,
        _ => unreachable!(),
    }
}

/// What an output surface has.
pub fn output_in(content: &Content) -> &OutputSurface
    requires { kind_number content.now ≡ number.OUTPUT_SURFACE }
    ensures { content.now ≡ Content.Output result.now }
{
    match content {
        Content::Output(surface) => surface,
        _ => unreachable!(),
    }
}

/// When this queue flipped to a surface last, by the surface's latest flip.
pub fn time_on(last_flip: Option<LastFlip>, queue: u64) -> u64
    ensures { result ≡ option_map_or (time_if_on queue) (option_map flip_of last_flip) 0 }
{
    match last_flip {
        Some(flip) if flip.queue == queue => flip.time,
        _ => 0,
    }
}
