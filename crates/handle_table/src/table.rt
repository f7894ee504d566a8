// The table.
ghost use Rattle.std.specs.Prelude.{◌≡◌, ◌⊎◌, ℕ, ◌+◌, ◌*◌, ◌^◌, ◌≤◌, List, [], ◌∷◌, ◌++◌, length, Some, None, Contains, IfSome, IfOk, IfErr, OnErr, option_copied};
ghost use Rattle.std.specs.Option.{option_copied_mut};
ghost use Rattle.std.specs.Borrow.{sem};
ghost use Rattle.handle_table.specs.Fault.{IfFull, IsFull, returned};
ghost use Rattle.handle_table.specs.Given.{HasGiven};
ghost use Rattle.handle_table.specs.Handles.{Adds, Updates, lookup};
ghost use Rattle.handle_table.specs.Name.{IsNameOf};

use crate::fault::InsertFault;
use crate::slot::Slot;
use crate::{name, slot};
use slab::Slab;
use std::alloc::Global;
use std::marker::Model;

/// Values by kind and name. At most 1,024 are in the table at a time.
#[derive(Drop)]
pub struct HandleTable<T> {
    // By the index of a name. A slot keeps the count of its generations when its value goes.
    slots: Vec<Slot>,
    values: Slab<T>,
}

impl<T> Model for HandleTable<T> {
    ghost use Rattle.std.specs.Prelude.{map};
    ghost use Rattle.handle_table.specs.Handles.{Handles, handles_code};

    ghost Value = { Handles T };

    ghost coded = { handles_code T.code };

    ghost use Rattle.handle_table.specs.Slots.{live_in, used_of};
    ghost use Rattle.handle_table.specs.Sound.{IsSound};

    ghost view = { λ t. record {
      live = live_in t.values t.slots.items;
      generations = map used_of t.slots.items;
    } };

    ghost invariant = { λ t. IsSound t.slots.items t.values };
}

impl<T> HandleTable<T> {
    ghost use Rattle.handle_table.specs.Lends.{lends_value};

    /// A table with nothing in it, which takes no memory before the first insert.
    pub fn new(alloc: Global) -> HandleTable<T>
        ensures empty { result.live ≡ [] }
        ensures given { HasGiven result [] }
    {
        HandleTable {
            slots: Vec::new(alloc),
            values: Slab::new(alloc),
        }
    }

    /// Puts the value into the table, and answers its name: kind * 2^29 + generation * 2^13 + index.
    pub fn insert(&mut self, kind: u32, value: T) -> Result<u32, InsertFault<T>>
        requires { kind ≤ 5 }
        // The name is a new one.
        ensures form { IfOk result (IsNameOf kind) }
        ensures fresh { IfOk result (λ name. (names : List ℕ) → HasGiven self.old names → ¬ Contains names name) }
        ensures given { IfOk result (λ name. (names : List ℕ) → HasGiven self.old names → HasGiven self.new (names ++ name ∷ [])) }
        ensures not_live { IfOk result (λ name. (k : ℕ) → lookup self.old.live k name ≡ None) }

        // The value is in the table under it, and the others are as they were.
        ensures added { IfOk result (λ name. Adds self.old.live self.new.live (record { kind = kind; name = name; value = value })) }
        ensures updates { IfOk result (λ name. Updates self.old.live self.new.live kind name (Some value)) }
        ensures bounded { length self.new.live ≤ 1024 }

        // It is full where 1,024 are live, and beside that only where so many names were given.
        ensures full { length self.old.live ≡ 1024 → IsFull result }
        ensures full_only { IfFull result (λ live given. (live ≡ 1024) ⊎ (7168 * 65536 ≤ given)) }
        ensures told_live { IfFull result (λ live given. live ≡ length self.old.live) }
        ensures told_given { IfFull result (λ live given. (names : List ℕ) → HasGiven self.old names → given ≡ length names) }

        // A value that isn't taken comes back, and nothing changes.
        ensures value_returned { IfErr result (λ fault. returned fault ≡ value) }
        ensures err { OnErr result (self.new ≡ self.old) }
    {
        let live = self.values.len();
        let Some(index) = slot::free_index(&self.slots, live) else {
            return Err(InsertFault::Full {
                value,
                live: live as u32,
                given: slot::given(&self.slots),
            });
        };
        if self.values.reserve(1).is_err() || slot::grow(&mut self.slots, index).is_err() {
            return Err(InsertFault::OutOfMemory(value));
        }
        let name = name::from_parts(kind, self.slots[index].used(), index as u32);
        let key = self.values.insert_reserved(value);
        self.slots[index] = Slot::Live { name, key };
        Ok(name)
    }

    /// The value with this kind and name, if it is in the table.
    #[inline]
    pub fn get(&self, kind: u32, name: u32) -> Option<&T>
        ensures { option_copied result ≡ lookup self.now.live kind name }
    {
        let key = slot::key(&self.slots, kind, name)?;
        self.values.get(key)
    }

    /// The value with this kind and name for writing, if it is in the table.
    #[inline]
    pub fn get_mut(&mut self, kind: u32, name: u32) -> Option<&mut T>
        ensures* writes_back { sem 𝓛 (lends_value T.row self.entry kind name result) }
        ensures value { option_copied_mut result ≡ lookup self.old.live kind name }
    {
        let key = slot::key(&self.slots, kind, name)?;
        self.values.get_mut(key)
    }

    /// Takes the value with this kind and name out of the table, if it is there. Its name is never given
    /// again.
    pub fn remove(&mut self, kind: u32, name: u32) -> Option<T>
        ensures value { result ≡ lookup self.old.live kind name }
        ensures removed { IfSome result (λ value. Adds self.new.live self.old.live (record { kind = kind; name = name; value = value })) }
        ensures updates { Updates self.old.live self.new.live kind name None }
        ensures given { (names : List ℕ) → HasGiven self.old names → HasGiven self.new names }
        ensures absent { result ≡ None → self.new ≡ self.old }
    {
        let key = slot::key(&self.slots, kind, name)?;
        self.slots[name::index(name)] = Slot::Vacant {
            generation: name::generation(name) + 1,
        };
        Some(self.values.remove(key))
    }
}
