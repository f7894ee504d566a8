// What a picture's units come to. H.264, clause 8.
ghost use Rattle.render_outcomes.specs.Constructions.{SlicesAreConstructedOrStop};
ghost use Rattle.render_outcomes.specs.Outcomes.{DecodedPicturesExist, OutcomesExist};

/// A slice has marks and samples that meet the equations of all its macroblocks, or there is the first
/// macroblock that can't be constructed, with the marks and samples of those before it.
pub fn slices_are_constructed_or_stop()
    ensures { SlicesAreConstructedOrStop }
{}

/// Marks and tiles of a picture's macroblocks have their picture behind the deblocking filter.
pub fn decoded_pictures_exist()
    ensures { DecodedPicturesExist }
{}

/// A picture's units have an outcome, whatever they are: the picture, the first unit that isn't accepted,
/// or how many macroblocks aren't covered.
pub fn outcomes_exist()
    ensures { OutcomesExist }
{}
