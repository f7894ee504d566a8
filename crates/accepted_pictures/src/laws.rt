// What a file's bytes settle of its pictures.
ghost use Rattle.accepted_pictures.specs.Files.{HaveOneReading};
ghost use Rattle.accepted_pictures.specs.Laws.{OneThingComesNext, RefusalsAreOfTheFile, RefusalsStay, SettledPicturesAreFirst, SettledPicturesStay};

/// A file has one list of accepted pictures at most, with their samples, and one place where it isn't accepted,
/// or none. That it has such a reading is a law of `file_readings`.
pub fn files_have_one_reading()
    ensures { HaveOneReading }
{}

/// The pictures that a front of a file settles are the first ones of every file that begins with it, in order.
/// Where an access unit that it settles isn't accepted, the file isn't accepted there, and has no other picture.
pub fn settled_pictures_stay()
    ensures stay { SettledPicturesStay }
    ensures first { SettledPicturesAreFirst }
    ensures refusals { RefusalsStay }
    ensures faults { RefusalsAreOfTheFile }
{}

/// At one moment one thing comes next at most: more bytes are wanted, or a picture, with its samples, or the end, or
/// an access unit that isn't accepted, at its place and for its cause.
pub fn one_thing_comes_next()
    ensures { OneThingComesNext }
{}
