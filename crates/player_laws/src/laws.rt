// What a player knows.
ghost use Rattle.player_laws.specs.Devices.{NamesAreOfTheDevice, ObjectsStay, OthersLeaveTheDevice, StepsStayOnOneDevice};
ghost use Rattle.player_laws.specs.Displays.{DisplaysAreFlipped};
ghost use Rattle.player_laws.specs.FlipParts.{FlipsAreOfTheirParts};
ghost use Rattle.player_laws.specs.FlipTexts.{OrderedFlipsAreWritten, TextsGoOn};
ghost use Rattle.player_laws.specs.FlipWindows.{FlipsAreInTheirWindows};
ghost use Rattle.player_laws.specs.Room.{CallersAddUp, CreatesFindRoom, LiveObjectsOnlyDie, SixteenCallersFindRoom};
ghost use Rattle.player_laws.specs.Shown.{FrontsAreSettled, LastsAreOpen, LatePicturesAreNotShown, LaterPicturesShowLater, ShownTimesRise, TicksAreFound, TicksInTimeAreFound};

/// What is shown of a stream's first pictures is settled but for the last of them, which may give way to one that
/// follows, if that has the same tick. Shown times rise, and further pictures are shown no earlier than at their
/// tick.
pub fn shown_pictures_settle()
    ensures fronts { FrontsAreSettled }
    ensures lasts { LastsAreOpen }
    ensures times { ShownTimesRise }
    ensures later { LaterPicturesShowLater }
    ensures late { LatePicturesAreNotShown }
{}

/// A picture's tick is that of the line that is found for its time, and it is in time where that line stands before
/// the one that preempts the stream.
pub fn ticks_of_pictures_are_found()
    ensures found { TicksAreFound }
    ensures in_time { TicksInTimeAreFound }
{}

/// A call changes only objects of the device of the object that it names first. So while calls are about other
/// devices, each object of a device stays as it is.
pub fn calls_stay_on_one_device()
    ensures steps { StepsStayOnOneDevice }
    ensures others { OthersLeaveTheDevice }
    ensures names { NamesAreOfTheDevice }
    ensures objects { ObjectsStay }
{}

/// At most as many objects live, and at most as many names were given, as all callers' own items say together. What
/// a caller has made never comes to live again.
pub fn callers_add_up()
    ensures sums { CallersAddUp }
    ensures die { LiveObjectsOnlyDie }
{}

/// A create finds room where fewer objects live than the limits and fewer names were given than there are. So
/// sixteen callers who each make little find room always.
pub fn creates_find_room()
    ensures room { CreatesFindRoom }
    ensures sixteen { SixteenCallersFindRoom }
{}

/// Of a queue on which displays are made for ticks of a clock, each in time, the flips are those that the displays ask
/// for, in their order, as far as their times were ticked: each has what its surface had at its display. The queue's
/// entries are the other ones.
pub fn displays_are_flipped()
    ensures { DisplaysAreFlipped }
{}

/// The flips of what is about a device in a history are those that the whole history has on the device's queues.
pub fn flips_are_of_their_parts()
    ensures { FlipsAreOfTheirParts }
{}

/// Each flip is in the window that its queue was made for.
pub fn flips_are_in_their_windows()
    ensures { FlipsAreInTheirWindows }
{}

/// Flips that are written by their times, and at one time by their streams, have their text one after the other; and
/// what comes behind them adds its own.
pub fn ordered_flips_are_written()
    ensures written { OrderedFlipsAreWritten }
    ensures more { TextsGoOn }
{}
