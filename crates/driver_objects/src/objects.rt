// The list of the objects that a driver keeps.
ghost use Rattle.std.specs.Prelude.{◌≡◌, ◌<◌, ◌++◌, ◌∷◌, [], length, vec_capacity, vec_len};
ghost use Rattle.handle_table.specs.Name.{kind_of};
ghost use Rattle.driver_objects.specs.Sound.{IsSound};

use crate::content::Content;
use crate::fault::AddFault;
use crate::object::Object;
use handle_table::{HandleTable, InsertFault};
use std::alloc::Global;
use std::mem;

/// The objects that a driver keeps, in the order in which they were made.
#[derive(Drop)]
pub struct Objects {
    // The place of each live object.
    names: HandleTable<u64>,
    // By rising places.
    kept: Vec<Object>,
    // How many objects were ever made.
    made: u64,
    ghost sound: { IsSound names kept.items made },
}

impl Objects {
    ghost use Rattle.std.specs.Prelude.{◌≡◌, ◌⊎◌, ℕ, ◌*◌, ◌+◌, ◌≤◌, ◌<◌, List, [], ◌∷◌, ◌++◌, Some, not, length, count_by, slice_get, slice_set, remove, option_map, Contains, OnOk, OnErr, IfOk, IfSome};
    ghost use Rattle.handle_table.specs.Name.{IsNameOf};
    ghost use Rattle.driver_objects.specs.Faults.{IfFull};
    ghost use Rattle.driver_objects.specs.Kept.{IsGiven, kept_of, made_of};
    ghost use Rattle.driver_objects.specs.Listed.{HasObjectAt, IsOnly, called, destroyed, is_at, made_object, with_content};

    /// There are none yet.
    pub fn new(alloc: Global) -> Objects
        ensures kept { kept_of result ≡ [] }
        ensures made { made_of result ≡ 0 }
        ensures given { IsGiven result [] }
    {
        Objects {
            names: HandleTable::new(alloc),
            kept: Vec::new(alloc),
            made: 0,
        }
    }

    /// The objects that are kept, in the order in which they were made.
    pub fn kept(&self) -> &[Object]
        ensures { result.now ≡ kept_of self.now }
    {
        self.kept.as_slice()
    }

    /// How many objects live.
    pub fn live(&self) -> u32
        ensures { result ≡ count_by (λ object. object.is_live) (kept_of self.now) }
    {
        let mut live = 0;
        for object in &self.kept {
            if object.is_live {
                live += 1;
            }
        }
        live
    }

    /// How many objects were ever made.
    pub fn made(&self) -> u64
        ensures { result ≡ made_of self.now }
    {
        self.made
    }

    /// Which of the kept objects is the live one with this kind and name.
    pub fn find(&self, kind: u32, name: u32) -> Option<usize>
        ensures { IsOnly (called kind name) (kept_of self.now) result }
    {
        let place = *self.names.get(kind, name)?;
        self.at(place)
    }

    /// Which of the kept objects has this place among all objects ever made.
    pub fn at(&self, place: u64) -> Option<usize>
        ensures { IsOnly (is_at place) (kept_of self.now) result }
    {
        match self
            .kept
            .binary_search_by_key(&place, |object| object.place)
        {
            Ok(index) => Some(index),
            Err(_) => None,
        }
    }

    /// Gives an object other content, and answers what it had.
    pub fn replace(&mut self, index: usize, content: Content) -> Content
        requires { index < length (kept_of self.old) }
        ensures was { (object : Object) → slice_get (kept_of self.old) index ≡ Some object → result ≡ object.content }
        ensures now { (object : Object) → slice_get (kept_of self.old) index ≡ Some object
            → kept_of self.new ≡ slice_set (kept_of self.old) index (with_content object content) }
        ensures made { made_of self.new ≡ made_of self.old }
        ensures given { (names : List ℕ) → IsGiven self.old names → IsGiven self.new names }
    {
        mem::replace(&mut self.kept[index].content, content)
    }

    /// Makes a live object of this kind, and answers its name. It belongs to the device with this place, or,
    /// being a device, to itself.
    pub fn add(&mut self, kind: u32, device: Option<u64>, content: Content) -> Result<u32, AddFault>
        requires { kind ≤ 5 }
        // The name is a new one, of this kind, and the object is the last.
        ensures form { IfOk result (IsNameOf kind) }
        ensures fresh { IfOk result (λ name. (names : List ℕ) → IsGiven self.old names → ¬ Contains names name) }
        ensures given { IfOk result (λ name. (names : List ℕ) → IsGiven self.old names → IsGiven self.new (names ++ name ∷ [])) }
        ensures added { IfOk result (λ name. kept_of self.new ≡ kept_of self.old ++ made_object (made_of self.old) name device content ∷ []) }
        ensures made { OnOk result (made_of self.new ≡ made_of self.old + 1) }

        // At most 1,024 are live. It is full there, and beside that only where so many were made.
        ensures full_only { IfFull result (λ live given. (live ≡ 1024) ⊎ (7168 * 65536 ≤ given)) }
        ensures told { IfFull result (λ live given. (live ≡ count_by (λ object. object.is_live) (kept_of self.old)) × (given ≡ made_of self.old)) }
        ensures few { OnOk result (count_by (λ object. object.is_live) (kept_of self.old) < 1024) }

        // Where none is made nothing changes.
        ensures kept_as_was { OnErr result (kept_of self.new ≡ kept_of self.old) }
        ensures made_as_was { OnErr result (made_of self.new ≡ made_of self.old) }
        ensures given_as_was { OnErr result ((names : List ℕ) → IsGiven self.old names → IsGiven self.new names) }
    {
        if self.kept.reserve(1).is_err() {
            return Err(AddFault::OutOfMemory);
        }
        let place = self.made;
        let name = match self.names.insert(kind, place) {
            Ok(name) => name,
            Err(InsertFault::Full { live, given, .. }) => {
                return Err(AddFault::Full { live, given });
            }
            Err(InsertFault::OutOfMemory(_)) => return Err(AddFault::OutOfMemory),
        };
        let object = Object {
            place,
            name,
            device: device.unwrap_or(place),
            is_live: true,
            content,
        };
        push_reserved(&mut self.kept, object);
        self.made += 1;
        Ok(name)
    }

    /// Destroys a live object: its name is dead from now on. It stays in the list.
    pub fn destroy(&mut self, index: usize)
        requires { HasObjectAt (λ object. object.is_live) (kept_of self.old) index }
        ensures now { (object : Object) → slice_get (kept_of self.old) index ≡ Some object
            → kept_of self.new ≡ slice_set (kept_of self.old) index (destroyed object) }
        ensures made { made_of self.new ≡ made_of self.old }
        ensures given { (names : List ℕ) → IsGiven self.old names → IsGiven self.new names }
    {
        let name = self.kept[index].name;
        self.names.remove(kind(name), name);
        self.kept[index].is_live = false;
    }

    /// Lets go of a destroyed object, which isn't in the list any more.
    pub fn forget(&mut self, index: usize)
        requires { HasObjectAt (λ object. not object.is_live) (kept_of self.old) index }
        ensures now { kept_of self.new ≡ remove (kept_of self.old) index }
        ensures made { made_of self.new ≡ made_of self.old }
        ensures given { (names : List ℕ) → IsGiven self.old names → IsGiven self.new names }
    {
        self.kept.remove(index);
    }
}

// The kind that a name says.
fn kind(name: u32) -> u32
    ensures { result ≡ kind_of name }
{
    name >> 29
}

// Adds an object for which there is room.
fn push_reserved(kept: &mut Vec<Object>, object: Object)
    requires { vec_len kept.old < vec_capacity kept.old }
    ensures { kept.new.items ≡ kept.old.items ++ object ∷ [] }
{
    match kept.push(object) {
        Ok(()) => {}
        Err(_) => unreachable!(),
    }
}
