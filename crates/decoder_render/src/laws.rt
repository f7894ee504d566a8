// What a picture's units come to is settled by the units, whatever the names of its references.
ghost use Rattle.std.specs.Prelude.{◌≡◌, ℕ, List, Option};
ghost use Rattle.cb_types.specs.AcceptedInfo.{IsAcceptedBySome};
ghost use Rattle.cb_types.specs.SizeMbs.{IsWithinLimits};
ghost use Rattle.vd_plane.specs.Picture.{SameSamples};
ghost use Rattle.vd_plane.specs.declared.picture.Picture.{Picture};
ghost use Rattle.decoder_render.specs.Coverage.{Given};
ghost use Rattle.decoder_render.specs.Outcomes.{IsOutcome, IsWhole};
ghost use Rattle.decoder_render.specs.Renamed.{AcceptedSurfacesAreApart, OutcomesDontAskNames, RenamedInfosAreAccepted, RenamingGoesBack, WidestDecoderTakesAll, WidestDecoderTakesRenamed};
ghost use Rattle.decoder_render.specs.Submission.{ArePayloads};
ghost use Rattle.decoder_render.specs.declared.outcome.Outcome.{Outcome};

/// The units of a picture have one outcome at most, and where they are all that the picture needs, its
/// samples are settled too.
pub fn outcomes_are_unique()
    ensures outcome { (g : Given) (units : List (Option (List ℕ))) (a b : Outcome) (p q : Picture)
        → IsAcceptedBySome g.info → IsWithinLimits g.size
        → IsOutcome g units a p → IsOutcome g units b q → a ≡ b }
    ensures samples { (g : Given) (units : List (Option (List ℕ))) (p q : Picture)
        → IsAcceptedBySome g.info → IsWithinLimits g.size
        → IsWhole g units p → IsWhole g units q → SameSamples p q }
{}

/// A submission's text has one list of payloads at most: that of its NAL units, in their order.
pub fn submissions_have_one_reading()
    ensures one { (text : List ℕ) (a b : List (Option (List ℕ)))
        → ArePayloads text a → ArePayloads text b → a ≡ b }
{}

/// What a picture's units come to doesn't depend on the surfaces by which its info names the references,
/// only on the pictures at their places. A renaming can be undone.
pub fn outcomes_do_not_ask_names()
    ensures outcome { OutcomesDontAskNames }
    ensures back { RenamingGoesBack }
{}

/// A decoder takes a renamed info where it took the one before, if the new surfaces differ; those of an
/// info that it takes do. The decoder of profile 1 with 16 references takes what any takes.
pub fn renamed_infos_are_accepted()
    ensures renamed { RenamedInfosAreAccepted }
    ensures apart { AcceptedSurfacesAreApart }
    ensures widest { WidestDecoderTakesAll }
    ensures widest_renamed { WidestDecoderTakesRenamed }
{}
