// How callers wait for a lock, and who wakes them. A wait changes nothing of the table. How many sleep is
// counted beside it, only so that nobody is woken where nobody sleeps: no proof rests on these counts.
ghost use Rattle.std.specs.Prelude.{◌<◌};

use crate::kept::Kept;
use crate::lock::Lock;
use crate::rule::{LOGGED, NEXT, SERVING};
use std::hint;
use std::sync::Wait;
use std::sync::atomic::{AtomicU64, Ordering};
use std::time::Duration;

// So many looks are followed by spins, twice as many each time, and those after them by sleeps.
const SPINS: u32 = 6;

// After so many looks a caller draws a ticket, though the value is taken.
pub const PATIENCE: u32 = 8;

// The longest sleep, in microseconds.
const NAP: u64 = 10_000;

// How many callers sleep without a ticket, with a ticket, and until an item is logged.
#[derive(Drop)]
pub struct Sleepers {
    pub(crate) idle: AtomicU64,
    pub(crate) queued: AtomicU64,
    resting: AtomicU64,
}

impl Sleepers {
    pub fn new() -> Sleepers {
        Sleepers {
            idle: AtomicU64::new(0),
            queued: AtomicU64::new(0),
            resting: AtomicU64::new(0),
        }
    }
}

impl<T: Kept> Lock<T> {
    // Sleeps while the word is this number, until it is woken. The kernel compares the low half.
    fn nap<R: Wait>(&self, rt: &R, word: usize, number: u64)
        requires { word < 3 }
    {
        let low = (number % (1 << 32)) as u32;
        self.table
            .shared
            .park_timeout(rt, word, low, Duration::from_micros(NAP));
    }

    // Gives another thread time to serve the next ticket: some spins, and after more looks a sleep until it is
    // served, counted among those that sleep so.
    pub(crate) fn pause<R: Wait>(&self, rt: &R, looks: u32, serving: u64, asleep: &AtomicU64) {
        if looks < SPINS {
            for _ in 0..1u32 << looks {
                hint::spin_loop();
            }
        } else {
            asleep.fetch_add(1, Ordering::SeqCst);
            self.nap(rt, SERVING, serving);
            asleep.fetch_sub(1, Ordering::SeqCst);
        }
    }

    // Wakes whom the next turn may be: those that have a ticket, and where nobody has one, one that waits to
    // draw it. Who falls asleep after this look finds the ticket that is served now.
    pub(crate) fn wake_next(&self) {
        let words = &self.table.shared;
        if words.peek(NEXT) != words.peek(SERVING) {
            if self.sleepers.queued.load(Ordering::SeqCst) > 0 {
                words.wake_all(SERVING);
            }
        } else if self.sleepers.idle.load(Ordering::SeqCst) > 0 {
            words.wake_one(SERVING);
        }
    }

    // Wakes those that rest until an item is logged.
    pub(crate) fn wake_resting(&self) {
        if self.sleepers.resting.load(Ordering::SeqCst) > 0 {
            self.table.shared.wake_all(LOGGED);
        }
    }

    /// How many items were logged, by a look without a turn. For a proof it is any number. Who holds the value
    /// finds the length of the history that it then sees, since nobody else logs meanwhile.
    pub fn logged(&self) -> u64 {
        self.table.shared.peek(LOGGED)
    }

    /// Sleeps as long as the number of items logged is `seen`, which [`Lock::logged`] answered. Who logs the next
    /// item wakes it at the end of that turn; each sleep lasts for 10 ms at most, and a look follows. It draws no ticket.
    pub fn rest<R: Wait>(&self, rt: &R, seen: u64) {
        let resting = &self.sleepers.resting;
        resting.fetch_add(1, Ordering::SeqCst);
        for _ in rt.forever() {
            if self.logged() != seen {
                break;
            }
            self.nap(rt, LOGGED, seen);
        }
        resting.fetch_sub(1, Ordering::SeqCst);
    }
}
