// What is held, call by call.
ghost use Rattle.held_pictures.specs.Keeping.{CallsFindDevices, CallsFindHeld, CallsFindIdle, CallsGainAlone, CallsKeepDevices, CallsKeepHeld, EmptyCallsKeepHeld, EmptyItemsKeepHeld, ItemsKeepDevices, OthersKeepDevices, OthersKeepHeld, OthersKeepIdle, OwnItemsKeepHeld};

/// The items of others keep a device's place, all that is held there, and output surfaces idle, where no strangers call
/// on it.
pub fn others_keep_what_is_held()
    ensures devices { OthersKeepDevices }
    ensures held { OthersKeepHeld }
    ensures idle { OthersKeepIdle }
{}

/// An own item keeps what a name is held as, where it leaves the name; one that changes nothing keeps pixels, too.
pub fn items_keep_what_is_held()
    ensures devices { ItemsKeepDevices }
    ensures held { OwnItemsKeepHeld }
    ensures all { EmptyItemsKeepHeld }
{}

/// When a caller makes its next call, what was held behind its last one is there, as long as no strangers called on its
/// device.
pub fn calls_find_what_is_held()
    ensures alone { CallsGainAlone }
    ensures devices { CallsFindDevices }
    ensures held { CallsFindHeld }
    ensures idle { CallsFindIdle }
{}

/// And behind that call it is held, where the call leaves it.
pub fn calls_keep_what_is_held()
    ensures devices { CallsKeepDevices }
    ensures held { CallsKeepHeld }
    ensures all { EmptyCallsKeepHeld }
{}
