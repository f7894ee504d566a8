// What is known of a course's way, and what it tells of the files that begin with what was fed.
ghost use Rattle.stream_course.specs.Laws.{DecodedAreFirst, GivenAreNext, ShownAreFirst, WaysAreSmall};

/// No more pictures are told than decoded, of which there are few, and no more times promised than pictures told, but
/// for two.
pub fn ways_are_small()
    ensures { WaysAreSmall }
{}

/// The picture that was given stays the next one until it is settled, whatever is fed.
pub fn given_are_next()
    ensures { GivenAreNext }
{}

/// Where what was said of decoded pictures is true, they are the first accepted pictures of each file that begins with
/// what was fed, in order.
pub fn decoded_are_first()
    ensures { DecodedAreFirst }
{}

/// And what was told to be shown is the first that the script shows of the file; all the rest is shown at the promised
/// time or later.
pub fn shown_are_first()
    ensures { ShownAreFirst }
{}
