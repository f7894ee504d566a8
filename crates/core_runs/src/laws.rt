// What follows from the contracts of a core's calls.
ghost use Rattle.core_runs.specs.Histories.{AnswersAreReplies, BegunRendersComeToReplies, NewCoresAreKnown, RunsHaveHistories, StatesAreKnown};

/// Whatever is done on a core, in any order, has one legal history. In it each call that was answered has its reply,
/// each job stands at its beginning with the reply that its end answers, whenever it was run, and each end is a mark.
/// It begins with whatever history led to the state for which the core stood at first, and with nothing where the core
/// was new.
pub fn runs_have_histories()
    ensures histories { RunsHaveHistories }
    ensures new { NewCoresAreKnown }
    ensures states { StatesAreKnown }
{}

/// Each render that a core begins is a deed of a run, since what it comes to exists.
pub fn begun_renders_come_to_replies()
    ensures { BegunRendersComeToReplies }
{}

/// Each call that a core answers is a deed of a run, whatever the type of its answer.
pub fn answers_are_replies<A>()
    ensures { AnswersAreReplies A }
{}
