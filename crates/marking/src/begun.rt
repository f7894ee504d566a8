// A picture that begins.
use cb_types::{Header, PictureInfo};

/// A picture that begins: its info, its picture order count in its period, whether it begins a period, the
/// header that was given, and its own number.
///
/// The references of the info are the frames marked before the picture, by their own numbers, and none
/// where it is IDR. Its own number is the least that no marked frame has; later infos name it by that while
/// it is marked. A period begins at each IDR picture and at each picture with memory management control
/// operation 5; in the latter the count is 0, while the info has the counts that the picture is decoded
/// with.
#[derive(Clone, Copy, Debug, PartialEq, Eq)]
pub struct Begun {
    pub info: PictureInfo,
    pub poc: i32,
    pub period: bool,
    pub header: Header,
    pub frame: u32,
}

/// Why a picture isn't accepted.
#[derive(Clone, Copy, Debug, PartialEq, Eq)]
pub enum MarkFault {
    /// Its frame_num isn't the next one, and no gap is allowed there.
    Gap,
    /// Its marking isn't allowed (H.264, 8.2.5), or a picture order count isn't a number of 32 bits.
    Refused,
}
