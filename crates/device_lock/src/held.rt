// The value in a caller's turn, and how the turn ends.
ghost use Rattle.std.specs.Prelude.{◌≡◌, false, None, [], ◌∷◌};
ghost use Rattle.device_lock.specs.declared.view.Turn.TheVariants.{Holding, HasLogged};

use crate::kept::{Kept, Names};
use crate::lock::Lock;
use crate::pass::LockPass;
use crate::rule::{LOGGED, Place, SERVING};
use crate::steps::{Log, Serve};

// A turn in which nothing was logged, with the slot in hand and empty.
pub struct Hand<T: Kept> {
    pub(crate) seat: Place<T>,
    ghost slot: { seat.me.1 ≡ (0, None) ∷ [] },
    ghost turn: { (seat.me.0.turn ≡ Holding) × (seat.me.0.spent ≡ false) },
}

/// The value, in the turn of the caller that took it. It has to be given back.
pub struct Held<T: Kept> {
    pub(crate) value: T,
    pub(crate) hand: Hand<T>,
}

/// The turn of a caller that has logged its one item. The value is at home, and nobody takes it before
/// the turn is over. It has to be given back.
pub struct Logged<T: Kept> {
    pub(crate) seat: Place<T>,
    ghost slot: { seat.me.1 ≡ [] },
    ghost turn: { (seat.me.0.turn ≡ HasLogged) × (seat.me.0.spent ≡ false) },
}

impl<T: Kept> Held<T> {
    ghost use Rattle.std.specs.Prelude.{length, ◌++◌, Some, IsSome, IfSome};
    ghost use Rattle.std.specs.Borrow.{sem};
    ghost use Rattle.device_lock.specs.Numbers.{Knows};
    ghost use Rattle.device_lock.specs.Views.{with_item, without_turn};
    ghost use Rattle.device_lock.specs.Passes.{lock_id, pass_lock, pass_view, held_lock, held_view, held_value, logged_lock, logged_view};
    ghost use Rattle.device_lock.specs.Lends.{lends_value};

    /// The value, for writing. What is logged has to make up for what is written.
    pub fn value(&mut self) -> &mut T
        ensures* writes_back { sem 𝓛 (lends_value T.row T.Item.row T.Kept self.entry result) }
        ensures value { result.now ≡ held_value self.old }
    {
        &mut self.value
    }

    // The value lies in the slot again.
    fn put(self, lock: &Lock<T>) -> Place<T>
        requires { held_lock self ≡ lock_id lock.now }
        ensures lock { result.table_id ≡ held_lock self }
        ensures me { result.me ≡ (held_view self, (0, Some (held_value self)) ∷ []) }
    {
        let Held { value, hand } = self;
        let Hand { mut seat } = hand;
        match lock.table.shared.exchange(&mut seat, 0, Some(value)) {
            None => seat,
            Some(_) => unreachable!(),
        }
    }

    /// Logs the item that `W` names, and answers its place in the history, from 0. The value stands for
    /// the history with the item.
    pub fn log<W: Names<T::Item>>(self, lock: &Lock<T>) -> (Logged<T>, u64)
        requires lock { held_lock self ≡ lock_id lock.now }
        requires item { IsSome W.item }
        requires own { IfSome W.item (λ x. T.caller x ≡ (held_view self).number) }
        requires value { IfSome W.item (λ x. T.stands (held_value self) ((held_view self).seen ++ x ∷ [])) }
        ensures lock { logged_lock result.0 ≡ lock_id lock.entry.now }
        ensures view { IfSome W.item (λ x. logged_view result.0 ≡ with_item (held_view self) x) }
        ensures place { result.1 ≡ length (held_view self).seen }
        ensures knows { Knows T.caller (logged_view result.0) }
    {
        let mut seat = self.put(lock);
        let place = lock.table.shared.fetch_add::<Log<W>>(&mut seat, LOGGED, 1);
        (Logged { seat }, place)
    }

    /// Gives the value back as it was, and logs nothing.
    pub fn give_back(self, lock: &Lock<T>) -> LockPass<T>
        requires lock { held_lock self ≡ lock_id lock.now }
        requires value { T.stands (held_value self) (held_view self).seen }
        ensures lock { pass_lock result ≡ lock_id lock.entry.now }
        ensures view { pass_view result ≡ without_turn (held_view self) }
    {
        let mut home = self.put(lock);
        lock.table.shared.fetch_add::<Serve>(&mut home, SERVING, 1);
        lock.wake_next();
        LockPass { seat: home }
    }
}

impl<T: Kept> Logged<T> {
    ghost use Rattle.device_lock.specs.Views.{without_turn};
    ghost use Rattle.device_lock.specs.Passes.{lock_id, pass_lock, pass_view, logged_lock, logged_view};

    /// Ends the turn.
    pub fn give_back(self, lock: &Lock<T>) -> LockPass<T>
        requires { logged_lock self ≡ lock_id lock.now }
        ensures lock { pass_lock result ≡ lock_id lock.entry.now }
        ensures view { pass_view result ≡ without_turn (logged_view self) }
    {
        let Logged { mut seat } = self;
        lock.table.shared.fetch_add::<Serve>(&mut seat, SERVING, 1);
        lock.wake_next();
        lock.wake_resting();
        LockPass { seat }
    }
}
