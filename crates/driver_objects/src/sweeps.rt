// Destroyed objects: which of them are still kept.
ghost use Rattle.std.specs.Prelude.{◌≡◌, ℕ, ◌<◌, ◌||◌, List, filter, slice_get, Some};
ghost use Rattle.driver_objects.specs.Kept.{IsGiven, kept_of, made_of};
ghost use Rattle.driver_objects.specs.Kinds.{holder_of};
ghost use Rattle.driver_objects.specs.Swept.{AreWithin, is_wanted};

use crate::content::Content;
use crate::object::Object;
use crate::objects::Objects;
use present_queue::Queues;

/// Lets go of each destroyed object that no queue names any more.
pub fn sweep(objects: &mut Objects, queues: &Queues)
    requires { AreWithin (kept_of objects.old) }
    ensures kept { kept_of objects.new ≡ filter (is_wanted queues.now) (kept_of objects.old) }
    ensures made { made_of objects.new ≡ made_of objects.old }
    ensures given { (names : List ℕ) → IsGiven objects.old names → IsGiven objects.new names }
{
    let mut index = 0;
    while index < objects.kept().len() {
        if is_wanted(&objects.kept()[index], queues) {
            index += 1;
        } else {
            objects.forget(index);
        }
    }
}

// Whether the object is live, or a queue names it.
fn is_wanted(object: &Object, queues: &Queues) -> bool
    requires { (holder : ℕ) → holder_of object.now.content ≡ Some holder → holder < 5184 }
    ensures { result ≡ is_wanted queues.now object.now }
{
    object.is_live
        || match &object.content {
            Content::Output(surface) => {
                queues.queued(surface.holder) || queues.shown(surface.holder)
            }
            _ => false,
        }
}
