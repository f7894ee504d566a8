// A caller's token.
ghost use Rattle.std.specs.Prelude.{◌≡◌, []};
ghost use Rattle.device_lock.specs.Views.{IsAway};

use crate::kept::Kept;
use crate::rule::Place;

/// What a caller has seen of the history, and which items of it are its own. It has no bytes, and
/// outside a call neither a ticket nor the value.
#[derive(Drop)]
pub struct LockPass<T: Kept> {
    pub(crate) seat: Place<T>,
    pub ghost empty: { seat.me.1 ≡ [] },
    pub ghost away: { IsAway seat.me.0 },
}
