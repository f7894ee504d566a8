// How a stream's calls stay on one device.
ghost use Rattle.stream_calls.specs.DeviceLaws.{HeldNamesAreASet, HeldNamesAreWorked, LiveObjectsAreHeld, NoNamesAreHeldFirst, OthersKeepOneDevice, OwnCallsKeepOneDevice, StreamsMakeLittle};

/// Who has made no calls holds no names; and names are held in any order.
pub fn names_are_held()
    ensures first { NoNamesAreHeldFirst }
    ensures set { HeldNamesAreASet }
{}

/// What others call leaves a stream's calls on one device, and the held names held.
pub fn others_keep_one_device()
    ensures { OthersKeepOneDevice }
{}

/// No more of what a caller made lives than it holds names.
pub fn live_objects_are_held()
    ensures { LiveObjectsAreHeld }
{}

/// One item more that the caller may make leaves its calls on one device, whatever others called since its last one.
pub fn own_calls_keep_one_device()
    ensures { OwnCallsKeepOneDevice }
{}

/// Who stays on one device makes as little as a table of sixteen such callers has room for.
pub fn streams_make_little()
    ensures { StreamsMakeLittle }
{}

/// Worked cases of what is held, and of what may be made with it.
pub fn names_are_worked()
    ensures { HeldNamesAreWorked }
{}
