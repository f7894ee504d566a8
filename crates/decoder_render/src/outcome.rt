// What the decoding of a picture comes to.

/// The outcome of a picture's slice units.
#[derive(Clone, Copy, Debug, PartialEq, Eq)]
pub enum Outcome {
    /// Each unit is accepted, and the slices cover the picture.
    Ok,
    /// The unit of this number, counted from 0, is the first that isn't accepted.
    Bitstream { slice: u32 },
    /// Each unit is accepted, and so many macroblocks aren't covered by a slice.
    Incomplete { macroblocks: u32 },
}
