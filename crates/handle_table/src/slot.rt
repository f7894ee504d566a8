// What a table keeps for each index of a name.
ghost use Rattle.std.specs.Prelude.{◌≡◌, ◌⊎◌, ℕ, ◌+◌, ◌<◌, ◌≤◌, ◌++◌, ◌∷◌, [], true, length, IfSome, IfNone, OnSome, OnOk, OnErr, sum_by};
ghost use Rattle.handle_table.specs.Slots.{IsUsedUp, is_free, key_of, slot_at, used_of};
ghost use Rattle.handle_table.specs.declared.slot.Slot.TheVariants.{Vacant};

use crate::name;
use crate::name::{GENERATIONS, INDICES};
use std::alloc::AllocError;

// So many names live at most.
const MOST_LIVE: usize = 1024;

/// What stands at an index: the next generation to give, or the name that lives there and the key of
/// its value.
#[derive(Clone, Copy)]
pub enum Slot {
    Vacant { generation: u32 },
    Live { name: u32, key: usize },
}

impl Slot {
    /// Whether a name can be given here.
    pub fn is_free(&self) -> bool
        ensures { result ≡ is_free self.now }
    {
        match self {
            Slot::Vacant { generation } => *generation < GENERATIONS,
            Slot::Live { .. } => false,
        }
    }

    /// How many names were given here.
    pub fn used(&self) -> u32
        ensures { result ≡ used_of self.now }
    {
        match self {
            Slot::Vacant { generation } => *generation,
            Slot::Live { name, .. } => name::generation(*name) + 1,
        }
    }
}

/// The key of the value with this kind and name.
#[inline]
pub fn key(slots: &[Slot], kind: u32, name: u32) -> Option<usize>
    ensures { result ≡ key_of slots.now kind name }
{
    match slots.get(name::index(name)) {
        Some(Slot::Live { name: held, key }) if *held == name && name::kind(*held) == kind => {
            Some(*key)
        }
        _ => None,
    }
}

/// The least index at which a name can be given, which may be the first past the slots; none where so
/// many are live as can be.
pub fn free_index(slots: &[Slot], live: usize) -> Option<usize>
    requires { length slots.now ≤ 8192 }
    ensures room { OnSome result (live < 1024) }
    ensures free { IfSome result (λ i. is_free (slot_at slots.now i) ≡ true) }
    ensures within { IfSome result (λ i. (i < 8192) × (i ≤ length slots.now)) }
    ensures none { IfNone result ((1024 ≤ live) ⊎ IsUsedUp slots.now) }
{
    if live >= MOST_LIVE {
        return None;
    }
    match slots.iter().position(|slot| slot.is_free()) {
        Some(index) => Some(index),
        None if slots.len() < INDICES => Some(slots.len()),
        None => None,
    }
}

/// Makes a slot for the index, if there is none.
pub fn grow(slots: &mut Vec<Slot>, index: usize) -> Result<(), AllocError>
    requires { index ≤ length slots.old.items }
    ensures room { OnOk result (index < length slots.new.items) }
    ensures grown { (slots.new.items ≡ slots.old.items) ⊎ (slots.new.items ≡ slots.old.items ++ Vacant 0 ∷ []) }
    ensures few { index < 8192 → length slots.old.items ≤ 8192 → length slots.new.items ≤ 8192 }
    ensures err { OnErr result (slots.new.items ≡ slots.old.items) }
{
    if index == slots.len() {
        slots.push(Slot::Vacant { generation: 0 })?;
    }
    Ok(())
}

/// How many names were given at all the slots.
pub fn given(slots: &[Slot]) -> u64
    requires few { length slots.now ≤ 8192 }
    requires each { (i : ℕ) → used_of (slot_at slots.now i) ≤ 65536 }
    ensures { result ≡ sum_by used_of slots.now }
{
    let mut given = 0;
    for slot in slots {
        given += u64::from(slot.used());
    }
    given
}
