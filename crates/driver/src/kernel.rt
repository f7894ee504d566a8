// The driver for one caller, as the lock keeps it.
ghost use Rattle.std.specs.Prelude.{refl};
ghost use Rattle.driver_model.specs.Passes.{AreAtRest, caller_of};
ghost use Rattle.driver.specs.Standing.{StandsAt};

use device_lock::Kept;
use driver_core::Core;
use driver_model::Item;

/// The driver for one caller. It stands for a history where that leads to a state for which its core stands.
#[derive(Drop)]
pub struct Kernel {
    pub(crate) core: Core,
}

impl Kept for Kernel {
    type Item = Item;

    ghost caller = { caller_of };

    ghost stands = { λ kernel history. StandsAt kernel.core history };

    ghost at_rest = { AreAtRest };

    ghost empty_rests = { refl };
}
