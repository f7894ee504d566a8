// What the definitions say of one another.
ghost use Rattle.access_units.specs.Answers.{AnswersAreOne, NextPicturesAreOne};
ghost use Rattle.access_units.specs.Sequences.{SequencesHaveOneSet};

/// Accepted pictures of one coded video sequence have one sequence set, and so one size.
pub fn sequences_have_one_set()
    ensures { SequencesHaveOneSet }
{}

/// The answers of an acceptor exclude each other: at one moment at most one of them is right, with its place,
/// its cause, and its picture.
pub fn answers_are_one()
    ensures answers { AnswersAreOne }
    ensures pictures { NextPicturesAreOne }
{}
