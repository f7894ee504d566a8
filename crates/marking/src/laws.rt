// What the definitions say of one another.
ghost use Rattle.marking.specs.Frames.{FreeNumberIsLeast};
ghost use Rattle.marking.specs.History.{NamedBehind};

/// A picture's own number is the least that no frame marked before it has.
pub fn own_number_is_least()
    ensures { FreeNumberIsLeast }
{}

/// Behind one more picture a surface names that picture, by its own number, or a picture that it named
/// before.
pub fn named_behind()
    ensures { NamedBehind }
{}
