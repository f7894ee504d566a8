// Room for records before they are made.
ghost use Rattle.std.specs.Prelude.{◌≡◌, ◌+◌, ◌<◌, ◌≤◌, ◌∷◌, ◌++◌, [], length, vec_capacity, true};

use trace_records::{Event, Record};

// Whether there is room for so many more records, which is made where there is memory.
pub(crate) fn has_room(records: &mut Vec<Record>, count: usize) -> bool
    ensures same { records.new.items ≡ records.old.items }
    ensures room { result ≡ true → length records.new.items + count ≤ vec_capacity records.new }
{
    records.try_reserve(count).is_ok()
}

// Puts a record behind the others, for which there is room.
pub(crate) fn put(records: &mut Vec<Record>, place: u64, event: Event)
    requires { length records.old.items < vec_capacity records.old }
    ensures is { records.new.items ≡ records.old.items ++ record { place = place; event = event } ∷ [] }
    ensures room { vec_capacity records.old ≤ vec_capacity records.new }
{
    match records.push(Record { place, event }) {
        Ok(()) => {}
        Err(_) => unreachable!(),
    }
}
