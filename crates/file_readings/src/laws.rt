// What a file is read as.
ghost use Rattle.file_readings.specs.Laws.{FilesHaveReadings, ReadingsAreFunctions};
ghost use Rattle.file_readings.specs.UnitContents.{PicturesAreDecided, UnitsTellSomething};

/// Each unit of a file tells something, whatever sets are known: the law gives what it tells.
pub fn units_tell_something()
    ensures { UnitsTellSomething }
{}

/// Whether an access unit is a picture behind others is decided, and which one it is then.
pub fn pictures_are_decided()
    ensures { PicturesAreDecided }
{}

/// Every file has its accepted pictures, each with its samples, and a fault, or none: too long a file has no
/// picture and the fault of one that is too large.
pub fn files_have_readings()
    ensures { FilesHaveReadings }
{}

/// They are functions of its bytes: there are no others.
pub fn readings_are_functions()
    ensures { ReadingsAreFunctions }
{}
