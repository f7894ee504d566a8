// The rule of a lock's table.
use crate::kept::Kept;
use crate::view::View;
use atomic_table::{Seat, Shared, Table, TableRule};
use std::alloc::Global;
use std::marker::PhantomData;

// The words of the table: the ticket that is drawn next, the one whose turn it is, and the number of
// items logged.
pub const NEXT: usize = 0;

pub const SERVING: usize = 1;

pub const LOGGED: usize = 2;

/// The rule of a lock that keeps a `T`.
pub struct OneHistory<T> {
    kept: PhantomData<T>,
}

impl<T: Kept> TableRule<Option<T>, View<T::Item>, ()> for OneHistory<T> {
    ghost use Rattle.device_lock.specs.Views.{first_view};
    ghost use Rattle.device_lock.specs.Rule.{Rule};

    ghost holds = { λ _. Rule T.caller T.stands T.at_rest };

    ghost first = { λ _. first_view };
}

pub type Words<T> = Shared<Option<T>, View<<T as Kept>::Item>, (), OneHistory<T>>;

pub type Board<T> = Table<Option<T>, View<<T as Kept>::Item>, (), OneHistory<T>, Global>;

pub type Place<T> = Seat<Option<T>, View<<T as Kept>::Item>>;
