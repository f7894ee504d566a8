// The end of a device: its objects are destroyed with it.
ghost use Rattle.std.specs.Prelude.{◌≡◌, ℕ, ◌<◌, ◌&&◌, ◌==◌, true, false, List, length, map, Some};
ghost use Rattle.std.specs.List.{list_any};
ghost use Rattle.present_queue.specs.Queue.{empty_queue};
ghost use Rattle.present_queue.specs.Queues.{queue_at};
ghost use Rattle.driver_objects.specs.Kept.{IsGiven, kept_of, made_of};
ghost use Rattle.driver_objects.specs.DeviceEnds.{AreNumbered, ended, is_queue_on, without_queue};
ghost use Rattle.driver_objects.specs.Kinds.{number_of};

use crate::content::Content;
use crate::object::Object;
use crate::objects::Objects;
use present_queue::Queues;

/// Destroys each object of the device with this place among all objects ever made, and empties its queues.
pub fn destroy_all(objects: &mut Objects, queues: &mut Queues, device: u64)
    requires numbers { AreNumbered (kept_of objects.old) }
    requires limits { length queues.old ≡ 64 }
    ensures kept { kept_of objects.new ≡ map (ended device) (kept_of objects.old) }
    ensures made { made_of objects.new ≡ made_of objects.old }
    ensures given { (names : List ℕ) → IsGiven objects.old names → IsGiven objects.new names }
    ensures emptied { (number : ℕ) → list_any (is_queue_on device number) (kept_of objects.old) ≡ true → queue_at queues.new number ≡ empty_queue }
    ensures others { (number : ℕ) → list_any (is_queue_on device number) (kept_of objects.old) ≡ false → queue_at queues.new number ≡ queue_at queues.old number }
    ensures count { length queues.new ≡ length queues.old }
{
    for index in 0..objects.kept().len() {
        if is_live_on(&objects.kept()[index], device) {
            clear(queues, &objects.kept()[index].content);
            objects.destroy(index);
        }
    }
}

// Whether the object is live, and belongs to the device.
fn is_live_on(object: &Object, device: u64) -> bool
    ensures { result ≡ (object.now.is_live && object.now.device == device) }
{
    object.is_live && object.device == device
}

// Empties the queue that this is, if it is one.
fn clear(queues: &mut Queues, content: &Content)
    requires { (number : ℕ) → number_of content.now ≡ Some number → number < 64 }
    ensures { queues.new ≡ without_queue (number_of content.now) queues.old }
{
    if let Content::Queue(queue) = content {
        queues.clear(queue.number);
    }
}
