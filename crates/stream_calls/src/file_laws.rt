// How what a stream's calls have played goes on, and what of it is a file's.
ghost use Rattle.stream_calls.specs.ComesOut.{AcceptedPicturesArePushed, AllComeOut, FirstPicturesAreSettled, LastPictureIsShown, PicturesAreAccepted, PicturesComeOut, PicturesKeepTheirNumbers, PushedStayPushed, PushesLeaveTheOut, SettledPicturesGrow, WhatCameOutIsFirst, WhatCameOutIsFirstOfThese, WhatCameOutIsSettled};
ghost use Rattle.stream_calls.specs.DisplaysGoOn.{DisplaysAreCounted, DisplaysGoOn, MixesGoOn, OtherCallsDisplayNothing, OtherCallsLeaveMixes, OthersDisplayNothing, OthersLeaveMixes};
ghost use Rattle.stream_calls.specs.Gained.{CallsLeadOn, GainedItemsHappen, OthersComeBetween, OwnItemsGrow};
ghost use Rattle.stream_calls.specs.Played.{DisplaysArePlayed, NoCallsPlayNothing, NothingIsOfEachFile, OtherCallsPlayNothing, OtherCallsStayOfTheFile, OthersPlayNothing, PromisesStayOfTheFile, RendersArePlayed, WhatIsPlayedFollows};
ghost use Rattle.stream_calls.specs.PromisesGoOn.{DisplaysAddUp, OtherCallsPromiseNothing, PromisesGoOn, PromisesGoOnBehind};
ghost use Rattle.stream_calls.specs.RendersGoOn.{OtherCallsRenderNothing, OthersRenderNothing, RendersAreCounted, RendersGoOn};

/// A call adds one item to its caller's pass, which happens in one state and leads to another one. What comes before
/// it and wasn't seen yet is others'.
pub fn calls_gain_one_item()
    ensures states { CallsLeadOn }
    ensures happen { GainedItemsHappen }
    ensures between { OthersComeBetween }
    ensures own { OwnItemsGrow }
{}

/// The renders of a stream stay those of the same pictures behind items of others and behind its own other calls. One
/// more that was done adds its picture.
pub fn renders_go_on()
    ensures others { OthersRenderNothing }
    ensures calls { OtherCallsRenderNothing }
    ensures renders { RendersGoOn }
    ensures counted { RendersAreCounted }
{}

/// So do the displays of a stream, by shown pictures.
pub fn displays_go_on()
    ensures others { OthersDisplayNothing }
    ensures calls { OtherCallsDisplayNothing }
    ensures displays { DisplaysGoOn }
    ensures counted { DisplaysAreCounted }
{}

/// The mixes of a stream go into idle surfaces, also behind items of others, behind its other calls, and behind one
/// more such mix.
pub fn mixes_go_on()
    ensures others { OthersLeaveMixes }
    ensures calls { OtherCallsLeaveMixes }
    ensures mixes { MixesGoOn }
{}

/// Promises of a stream stay in time: behind each of its other calls, and behind one more of a time at which, or
/// later, all is shown that isn't displayed yet.
pub fn promises_go_on()
    ensures calls { OtherCallsPromiseNothing }
    ensures promises { PromisesGoOn }
    ensures behind { PromisesGoOnBehind }
    ensures displays { DisplaysAddUp }
{}

/// Calls that have rendered and displayed what comes first of a file follow the file.
pub fn what_is_played_follows()
    ensures { WhatIsPlayedFollows }
{}

/// What a stream's calls have played stays so behind items of others and behind its own other calls; a render and a
/// display add a picture.
pub fn playing_goes_on()
    ensures none { NoCallsPlayNothing }
    ensures others { OthersPlayNothing }
    ensures calls { OtherCallsPlayNothing }
    ensures renders { RendersArePlayed }
    ensures displays { DisplaysArePlayed }
{}

/// It stays what comes first of a file, with promises in time.
pub fn playing_stays_of_the_file()
    ensures none { NothingIsOfEachFile }
    ensures calls { OtherCallsStayOfTheFile }
    ensures promises { PromisesStayOfTheFile }
{}

/// A file's accepted pictures may be pushed into its output order, one after the other: each keeps its number, and is
/// what comes out by it.
pub fn accepted_pictures_are_pushed()
    ensures accepted { PicturesAreAccepted }
    ensures pushed { AcceptedPicturesArePushed }
    ensures stay { PushedStayPushed }
    ensures numbers { PicturesKeepTheirNumbers }
    ensures pushes { PushesLeaveTheOut }
    ensures out { PicturesComeOut }
{}

/// What came out before the end comes out first of all pictures of a file, whichever follow. Behind the end, where no
/// more comes out, it is all.
pub fn pictures_come_out_first()
    ensures first { WhatCameOutIsFirst }
    ensures these { WhatCameOutIsFirstOfThese }
    ensures all { AllComeOut }
{}

/// So what is shown of a file begins with what is settled of all but the last picture that came out.
pub fn what_is_shown_settles()
    ensures pictures { FirstPicturesAreSettled }
    ensures out { WhatCameOutIsSettled }
    ensures grow { SettledPicturesGrow }
    ensures last { LastPictureIsShown }
{}
