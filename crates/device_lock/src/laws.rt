// What the lock's rule means for its passes.
ghost use Rattle.device_lock.specs.Passes.{IsOutside};
ghost use Rattle.device_lock.specs.Histories.{OneHistory, InOrder, AllGiven, OneNumber, OnePass};

use crate::kept::Kept;
use crate::pass::LockPass;

/// In every state of a lock, of what two passes have seen one is a beginning of the other; the items of a
/// number are in the order in which its pass logged them; and no item has a number that was not given. No
/// two passes have one number, and a pass with the whole share is the only one.
pub fn one_history<T: Kept>()
    ensures beginnings { OneHistory T.caller T.stands T.at_rest }
    ensures in_order { InOrder T.caller T.stands T.at_rest }
    ensures given { AllGiven T.caller T.stands T.at_rest }
    ensures numbers { OneNumber T.caller T.stands T.at_rest }
    ensures whole { OnePass T.caller T.stands T.at_rest }
{}

/// Outside a call a pass has neither a ticket nor the slot.
pub fn passes_hold_nothing<T: Kept>(pass: &LockPass<T>)
    ensures { IsOutside pass.now }
{}
