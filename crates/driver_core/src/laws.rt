// What follows of how jobs begin.
ghost use Rattle.driver_core.specs.Comings.{MixesComeToTheirBeginnings, RendersComeToTheirBeginnings};

/// What is done of a job is what its beginning came to: a render's outcome, with its picture where that is Ok,
/// and a mix's bytes.
pub fn jobs_come_to_their_beginnings()
    ensures renders { RendersComeToTheirBeginnings }
    ensures mixes { MixesComeToTheirBeginnings }
{}
