// Values that come to have several owners.
ghost use Rattle.std.specs.Prelude.{◌≡◌, IfErr, IfOk};
ghost use Rattle.std.specs.Arc.{arc_value};
ghost use Rattle.driver_objects.specs.Stored.{value_of};

use std::alloc::{AllocError, Global};
use std::sync::Arc;

/// A value that has one owner, or is shared and doesn't change any more.
///
/// What is written without memory at hand is owned, and is shared when it is first lent out.
#[derive(Drop)]
pub enum Stored<T> {
    Own(T),
    Shared(Arc<T>),
}

impl<T> Stored<T> {
    /// The value.
    pub fn get(&self) -> &T
        ensures { result.now ≡ value_of self.now }
    {
        match self {
            Stored::Own(value) => value,
            Stored::Shared(value) => value,
        }
    }

    /// The same value, to share. Where there is no memory, it comes back.
    pub fn share(self, alloc: Global) -> Result<Arc<T>, Stored<T>>
        ensures ok { IfOk result (λ shared. arc_value shared ≡ value_of self) }
        ensures err { IfErr result (λ stored. value_of stored ≡ value_of self) }
    {
        match self {
            Stored::Own(value) => match Arc::new(alloc, value) {
                Ok(shared) => Ok(shared),
                Err(failed) => Err(Stored::Own(failed.value)),
            },
            Stored::Shared(shared) => Ok(shared),
        }
    }
}
