// The lock, and how a caller comes to its turn.
ghost use Rattle.std.specs.Prelude.{◌≡◌, [], ◌∷◌, Some, false};
ghost use Rattle.device_lock.specs.Views.{IsAway, with_ticket};
ghost use Rattle.device_lock.specs.declared.view.Turn.TheVariants.{Waiting};
ghost use mathlib.Core.List.{IsPrefix};

use crate::held::{Hand, Held};
use crate::kept::Kept;
use crate::pass::LockPass;
use crate::rule::{Board, LOGGED, NEXT, Place, SERVING};
use crate::steps::{Cut, Draw, Glue, Learn, Look};
use crate::waiting::{PATIENCE, Sleepers};
use atomic_table::Table;
use std::alloc::{AllocError, Global};
use std::sync::Wait;

/// A value with a history, which one caller at a time takes, in the order of their tickets.
#[derive(Drop)]
pub struct Lock<T: Kept> {
    pub(crate) table: Board<T>,
    pub(crate) sleepers: Sleepers,
    ghost sized: { (table.shared.table_id.words ≡ 3) × (table.shared.table_id.slots ≡ 1) },
}

impl<T: Kept> Lock<T> {
    ghost use Rattle.std.specs.Prelude.{IfOk};
    ghost use Rattle.device_lock.specs.Numbers.{items_of, Knows};
    ghost use Rattle.device_lock.specs.Views.{first_view, split_left, split_right, joined_view, IsSamePass};
    ghost use Rattle.device_lock.specs.Steps.{HasTurn};
    ghost use Rattle.device_lock.specs.Passes.{lock_id, pass_lock, pass_view, held_lock, held_view, held_value};

    /// A lock round a value, with an empty history, and the first pass to it, which has the whole share.
    pub fn new(alloc: Global, value: T) -> Result<(Lock<T>, LockPass<T>), AllocError>
    where
        T: Drop,
        requires { T.stands value [] }
        ensures lock { IfOk result (λ l. pass_lock l.1 ≡ lock_id l.0) }
        ensures pass { IfOk result (λ l. pass_view l.1 ≡ first_view) }
    {
        let mut slots = Vec::with_capacity(alloc, 1)?;
        slots.push(Some(value))?;
        match Table::new(alloc, &[0, 0, 0], slots, &()) {
            Ok((table, seat)) => {
                let sleepers = Sleepers::new();
                Ok((Lock { table, sleepers }, LockPass { seat }))
            }
            Err(_) => Err(AllocError),
        }
    }

    // Draws a ticket as soon as it would be served at once, and after some looks in any case. The greatest number
    // is none, so that no word wraps.
    fn draw<R: Wait>(&self, rt: &R, seat: &mut Place<T>) -> u64
        requires lock { seat.old.table_id ≡ lock_id self.now }
        requires away { IsAway seat.old.me.0 }
        ensures lock { seat.new.table_id ≡ seat.old.table_id }
        ensures ticket { seat.new.me ≡ (with_ticket seat.old.me.0 result, seat.old.me.1) }
    {
        let words = &self.table.shared;
        let mut looks = 0;
        for _ in rt.forever() {
            let serving = words.peek(SERVING);
            let next = words.peek(NEXT);
            if next < u64::MAX && (next == serving || looks >= PATIENCE) {
                let found = words.compare_exchange::<Draw>(seat, NEXT, next, next + 1);
                if found == next {
                    return next;
                }
            } else {
                self.pause(rt, looks, serving, &self.sleepers.idle);
            }
            looks = looks.saturating_add(1);
        }
        unreachable!()
    }

    // Waits for the turn of the ticket, and holds the slot then.
    fn wait_turn<R: Wait>(&self, rt: &R, seat: &mut Place<T>, ticket: u64)
        requires lock { seat.old.table_id ≡ lock_id self.now }
        requires ticket { (seat.old.me.0.ticket ≡ Some ticket) × (seat.old.me.0.turn ≡ Waiting) × (seat.old.me.0.spent ≡ false) }
        ensures lock { seat.new.table_id ≡ seat.old.table_id }
        ensures turn { HasTurn T.caller T.stands seat.old.me seat.new.me }
    {
        let words = &self.table.shared;
        let mut looks = 0;
        for _ in rt.forever() {
            let serving = words.load::<Look>(seat, SERVING);
            if serving == ticket {
                return;
            }
            self.pause(rt, looks, serving, &self.sleepers.queued);
            looks = looks.saturating_add(1);
        }
        unreachable!()
    }

    /// Waits for the caller's turn, and takes the value. It stands for the history that the caller has
    /// then seen, which begins with what its pass had seen. A ticket of 2^64 - 1 is never drawn.
    pub fn take<R: Wait>(&self, rt: &R, pass: LockPass<T>) -> Held<T>
        requires { pass_lock pass ≡ lock_id self.now }
        ensures lock { held_lock result ≡ lock_id self.entry.now }
        ensures value { T.stands (held_value result) (held_view result).seen }
        ensures seen { IsPrefix (pass_view pass).seen (held_view result).seen }
        ensures same { IsSamePass (pass_view pass) (held_view result) }
        ensures knows { Knows T.caller (held_view result) }
    {
        let LockPass { mut seat } = pass;
        let ticket = self.draw(rt, &mut seat);
        self.wait_turn(rt, &mut seat, ticket);
        match self.table.shared.exchange(&mut seat, 0, None) {
            Some(value) => Held {
                value,
                hand: Hand { seat },
            },
            None => unreachable!(),
        }
    }

    /// Splits a pass off another. The first has the caller's number, own and joined items; the second has a
    /// number of its own, which no item has. Both have seen what the pass had seen, and have half its share.
    pub fn split(&self, pass: LockPass<T>) -> (LockPass<T>, LockPass<T>)
        requires { pass_lock pass ≡ lock_id self.now }
        ensures locks { (pass_lock result.0 ≡ lock_id self.entry.now) × (pass_lock result.1 ≡ lock_id self.entry.now) }
        ensures first { pass_view result.0 ≡ split_left (pass_view pass) }
        ensures second { pass_view result.1 ≡ split_right (pass_view pass) }
        ensures number { items_of T.caller (pass_view result.1).number (pass_view pass).seen ≡ [] }
        ensures knows { Knows T.caller (pass_view result.0) × Knows T.caller (pass_view result.1) }
    {
        let LockPass { mut seat } = pass;
        let words = &self.table.shared;
        let mut second = words.split_seat::<Cut>(&mut seat);
        words.load::<Learn>(&mut seat, LOGGED);
        words.load::<Learn>(&mut second, LOGGED);
        (LockPass { seat }, LockPass { seat: second })
    }

    /// Joins b into a. The pass has a's number and own items, has seen the longer of the two histories, which
    /// the other begins, and keeps b's items among those that were joined. Its share is the sum of both.
    pub fn join(&self, a: LockPass<T>, b: LockPass<T>) -> LockPass<T>
        requires locks { (pass_lock a ≡ lock_id self.now) × (pass_lock b ≡ lock_id self.now) }
        requires rest { T.at_rest (pass_view b).own }
        ensures lock { pass_lock result ≡ lock_id self.entry.now }
        ensures view { pass_view result ≡ joined_view (pass_view a) (pass_view b) }
        ensures seen_a { IsPrefix (pass_view a).seen (pass_view result).seen }
        ensures seen_b { IsPrefix (pass_view b).seen (pass_view result).seen }
        ensures knows { Knows T.caller (pass_view result) }
    {
        let LockPass { mut seat } = a;
        let LockPass { seat: other } = b;
        let words = &self.table.shared;
        words.join_seat::<Glue>(&mut seat, other);
        words.load::<Learn>(&mut seat, LOGGED);
        LockPass { seat }
    }
}
