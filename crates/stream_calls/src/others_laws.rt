// What others leave of a stream's objects.
ghost use Rattle.stream_calls.specs.KeptObjects.{ItemsKeepMixers, ItemsKeepOutputs, ItemsKeepQueues};
ghost use Rattle.stream_calls.specs.OthersLeave.{NoStrangersGoOn, OthersAddNoNames, OthersLeaveHome, OthersLeaveIdle, OthersLeaveNames, OthersLeaveObjects};

/// While no strangers call on a device, the items of others leave its objects: they make nothing there and destroy
/// nothing; samples, pixels, decoders and mixers stay; queues at most show their entries, in order; a surface that no
/// queue names stays idle; and no job begins on a surface of the device.
pub fn others_leave_what_is_the_streams()
    ensures names { OthersAddNoNames }
    ensures objects { OthersLeaveObjects }
    ensures found { OthersLeaveNames }
    ensures idle { OthersLeaveIdle }
    ensures home { OthersLeaveHome }
{}

/// Where no strangers called on the device that the caller has made, each stretch of others' items in what it has seen
/// goes on so.
pub fn others_go_on_without_strangers()
    ensures { NoStrangersGoOn }
{}

/// A mixer, an output surface with its format and size, and a queue with its window are kept by each item that destroys
/// neither them nor their device, nor sets the mixer's matrix.
pub fn objects_are_kept()
    ensures mixers { ItemsKeepMixers }
    ensures outputs { ItemsKeepOutputs }
    ensures queues { ItemsKeepQueues }
{}
