// What follows of what a pacer promises.
ghost use Rattle.frame_pacer.specs.Laws.{PromisesAreKept};

/// The last picture that came out and all that follow it are shown at the promised time or later.
pub fn promises_are_kept()
    ensures { PromisesAreKept }
{}
