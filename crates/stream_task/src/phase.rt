// What a task is about.
use crate::answers::Verdict;
use access_units::Unsettled;

/// What a task is about between two calls.
#[derive(Drop)]
pub enum Phase {
    /// It asks what is to be done next.
    Asking,
    /// This picture is to be rendered into this video surface, and what that needs is to be made before.
    Rendering { picture: Unsettled, surface: usize },
    /// The picture in this video surface is to be mixed, to be shown at this time.
    Mixing { surface: usize, time: u64 },
    /// The output surface in turn has a picture that is to be displayed at this time.
    Displaying { time: u64 },
    /// This time is to be promised.
    Promising(u64),
    /// The stream has ended.
    Done(Verdict),
}
