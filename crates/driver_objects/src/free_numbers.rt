// Numbers that none of the kept objects has yet, by which the presentation queues know them.
ghost use Rattle.std.specs.Prelude.{◌≡◌, ℕ, ◌<◌, true, false, slice_get, Some, IfSome, IfNone};
ghost use Rattle.std.specs.List.{list_any};
ghost use Rattle.driver_objects.specs.Kinds.{has_number, has_own_holder, holder_of};

use crate::content::Content;
use crate::object::Object;
use driver_model::MAX_QUEUES;

// So many numbers for surfaces the presentation queues have.
const HOLDERS: u32 = 5_184;

/// A holder that no surface has.
pub fn free_holder(kept: &[Object]) -> Option<u32>
    ensures free { IfSome result (λ holder. (holder < 5184) × ((i : ℕ) (object : Object) → slice_get kept.now i ≡ Some object → holder_of object.content ≡ Some holder → ⊥)) }
    ensures none { IfNone result ((holder : ℕ) → holder < 5184 → list_any (has_own_holder holder) kept.now ≡ true) }
{
    for holder in 0..HOLDERS {
        if !is_holder(kept, holder) {
            return Some(holder);
        }
    }
    None
}

// Whether a surface has this holder.
fn is_holder(kept: &[Object], holder: u32) -> bool
    ensures { result ≡ list_any (has_own_holder holder) kept.now }
{
    kept.iter().any(|object| match &object.content {
        Content::Output(surface) => surface.holder == holder,
        _ => false,
    })
}

/// A number that no queue has.
pub fn free_queue_number(kept: &[Object]) -> Option<u32>
    ensures free { IfSome result (λ number. (number < 64) × (list_any (has_number number) kept.now ≡ false)) }
    ensures none { IfNone result ((number : ℕ) → number < 64 → list_any (has_number number) kept.now ≡ true) }
{
    for number in 0..MAX_QUEUES {
        if !is_number(kept, number) {
            return Some(number);
        }
    }
    None
}

// Whether a queue has this number.
fn is_number(kept: &[Object], number: u32) -> bool
    ensures { result ≡ list_any (has_number number) kept.now }
{
    kept.iter().any(|object| match object.content {
        Content::Queue(queue) => queue.number == number,
        _ => false,
    })
}
