// What follows from the definitions.
ghost use Rattle.driver_model.specs.FlipLaws.{FlipsAreOne, ScriptsHaveOneText, StreamsSettleTheText, StreamsShowTheScript};
ghost use Rattle.driver_model.specs.Owed.{CountsKeepTargets, EndsKeepTargets, NotesHaveTargets, RunsKeepTargets, StepsKeepTargets};
ghost use Rattle.driver_model.specs.Laws.{DevicesHaveTheirKind, FrontsAreLegal, EndedJobsRest, HistoriesGoOn, HistoriesHaveSizes, HistoriesLeadToOneState, IdleSurfacesAreNotNamed, JobsAreOpen, JobsHaveOneReply, LastJobsMayEnd, LastJobsRun, LimitsAreOne, LiveQueuesDecide, MarksEndJobs, MatricesAreWhole, NamesAreGiven, NamesAreGivenOnce, NotesAreApart, NotesAreOfEntries, NotesKeepReplies, ObjectsAreSized, OneProfileTakesWeights, OtherCallsRest, PartsAreLegal, PartsBeginAlike, PartsHaveTheDevice, QueuesAreSound, RefusalsAreOne, RefusedBeginsRest, RefusalsLeaveTheState, RunningJobsAreNoted, StepsLeaveOneState, WaitingCallsAreNotAnswered};

/// The state behind a call is settled by the state before it, the caller, the call and its reply.
pub fn steps_leave_one_state()
    ensures { StepsLeaveOneState }
{}

/// A history leads to one state at most, whose objects have sizes within the limits, and each front of a legal
/// history is legal. It goes on with whatever can happen in that state.
pub fn histories_lead_to_one_state()
    ensures one { HistoriesLeadToOneState }
    ensures sizes { HistoriesHaveSizes }
    ensures fronts { FrontsAreLegal }
    ensures more { HistoriesGoOn }
{}

/// The names of all objects are those that the history gave, and none was given twice.
pub fn names_are_given_once()
    ensures given { NamesAreGiven }
    ensures once { NamesAreGivenOnce }
{}

/// A refusal leaves the state, where it isn't that of a job's bitstream; a call has one refusal at most in a
/// state, beside want of memory.
pub fn refusals_leave_the_state()
    ensures state { RefusalsLeaveTheState }
    ensures one { RefusalsAreOne }
{}

/// A call that waits isn't answered, but where memory wants.
pub fn waiting_calls_are_not_answered()
    ensures { WaitingCallsAreNotAnswered }
{}

/// A surface is idle exactly where no queue has an entry of it or shows it, and in the state of a legal history
/// where no live one does.
pub fn idle_surfaces_are_not_named()
    ensures unnamed { IdleSurfacesAreNotNamed }
    ensures live { LiveQueuesDecide }
{}

/// Where a legal history leads, each queue names output surfaces of its own device, at most 64 entries wait
/// in it, and a destroyed one is empty.
pub fn queues_are_sound()
    ensures { QueuesAreSound }
{}

/// The limits of sizes, and which profile may have weighted_pred_flag, are the same here as where pictures are
/// decoded.
pub fn numbers_agree()
    ensures sizes { LimitsAreOne }
    ensures weights { OneProfileTakesWeights }
{}

/// What is about one device in a legal history is a legal history by itself, where each call of it names objects of
/// that device alone. What it has of a front of the history is a front of it, and leads to a state that has the
/// device and its objects as the whole's state has them. The name that is given to a device has the kind of devices.
pub fn parts_are_legal()
    ensures legal { PartsAreLegal }
    ensures fronts { PartsBeginAlike }
    ensures states { PartsHaveTheDevice }
    ensures devices { DevicesHaveTheirKind }
{}

/// Where a legal history leads, the notes of running jobs are those of the entries that began a job which hasn't
/// ended: each such entry has one, and each note is of one. What the job's end answers is the entry's reply, and
/// the note's target is the object that the call named. No two notes have one number.
pub fn notes_are_entries()
    ensures entries { NotesAreOfEntries }
    ensures noted { RunningJobsAreNoted }
    ensures apart { NotesAreApart }
{}

/// Each mark of a legal history ends a job that its caller began before it and that had not ended, and what the end
/// answers is one reply: that of the entry at the job's beginning, which the job's note keeps.
pub fn ends_have_begins()
    ensures marks { MarksEndJobs }
    ensures notes { NotesKeepReplies }
    ensures one { JobsHaveOneReply }
{}

/// A caller whose last own item began a job may end it, whatever others did meanwhile: the job's note is there.
pub fn last_jobs_may_end()
    ensures noted { LastJobsRun }
    ensures legal { LastJobsMayEnd }
{}

/// A caller's items are at rest where each job that it began has ended. They stay so at a call that is no job, and
/// at a begin that was refused. A job that was begun leaves one open, which its end closes.
pub fn own_items_rest()
    ensures refused { RefusedBeginsRest }
    ensures others { OtherCallsRest }
    ensures begun { JobsAreOpen }
    ensures ended { EndedJobsRest }
{}

/// Where a legal history leads, each video surface's picture has the surface's size, each output surface has the
/// bytes of its pixels in one of the two formats, and each decoder has one of the profiles and few references. The
/// mixers' matrices have twelve numbers, where those of the calls have.
pub fn objects_are_sized()
    ensures objects { ObjectsAreSized }
    ensures matrices { MatricesAreWhole }
{}

/// From the beginning of a job to its end, its surface stays as the beginning left it: no call changes what the
/// surface has, nor does the end of another job. The job's note stays, too. Its target is a video surface where a
/// render began the job, and an output surface where a mix did.
pub fn jobs_keep_what_they_owe()
    ensures steps { StepsKeepTargets }
    ensures counts { CountsKeepTargets }
    ensures ends { EndsKeepTargets }
    ensures runs { RunsKeepTargets }
    ensures targets { NotesHaveTargets }
{}

/// The flips of the pictures that a script shows are one list at most, and have one text.
pub fn flips_are_one()
    ensures one { FlipsAreOne }
    ensures text { ScriptsHaveOneText }
{}

/// The text of flips is settled by each stream's flips in their order, whatever the order in which the streams take
/// turns. So flips have the text of what a script shows, where each stream's are those of its shown pictures.
pub fn streams_settle_the_text()
    ensures settled { StreamsSettleTheText }
    ensures shown { StreamsShowTheScript }
{}
