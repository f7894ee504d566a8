// What a pass knows. No value of these types is made: they are there for proofs.
use std::collections::LinkedList;

/// The number of a pass, and the items that were logged with it, in order.
pub struct Account<I> {
    pub number: LinkedList<u64>,
    pub own: LinkedList<I>,
}

/// How a seat stands to the lock.
pub enum Turn {
    /// It is not in its turn.
    Waiting,
    /// It holds the value, and has logged nothing in this turn.
    Holding,
    /// It has logged the one item of this turn, and given the value back.
    HasLogged,
}

/// A part of the whole: `parts` of the 2 ^ `halvings` equal parts that it was cut into.
pub struct Share {
    pub parts: u64,
    pub halvings: u64,
}

/// What a pass knows of the lock's history and of its own part in it.
pub struct View<I> {
    /// Names the caller.
    pub number: LinkedList<u64>,
    /// How many passes were split off it.
    pub splits: u64,
    /// The history that it has seen.
    pub seen: LinkedList<I>,
    /// The items that were logged with it.
    pub own: LinkedList<I>,
    /// What was joined into it, directly or through others.
    pub joined: LinkedList<Account<I>>,
    pub share: Share,
    /// The ticket that it has drawn and that was not served yet.
    pub ticket: Option<u64>,
    pub turn: Turn,
    /// It was joined into another one.
    pub spent: bool,
    /// Of the last join, the shorter of what the two passes had seen.
    pub met: LinkedList<I>,
}
