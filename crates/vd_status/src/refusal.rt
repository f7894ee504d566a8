// Why a call of the driver was refused.
ghost use Rattle.std.specs.Prelude.{◌≡◌, Some};
ghost use Rattle.std.specs.Fmt.{DisplaysOnOk};
ghost use Rattle.vd_status.specs.Statuses.{status_of};
ghost use Rattle.vd_status.specs.Texts.{counts_text, refusal_text};

use crate::status::VdpStatus;
use std::fmt;

/// Why a call was refused. A refused call changed nothing.
#[derive(Clone, Copy, Debug, PartialEq, Eq)]
pub enum Refusal {
    /// The handle with the number `arg` among the call's handles, counted from 0, names no live object of the
    /// kind that the call asks for.
    InvalidHandle { arg: u32 },
    /// The handle with this number belongs to another device than the first one.
    DeviceMismatch { arg: u32 },
    /// The device is preempted.
    Preempted,
    /// There is no such chroma type.
    BadChroma,
    /// There is no such YCbCr format.
    BadYCbCr,
    /// There is no such RGBA format.
    BadRgba,
    /// There is no such decoder profile.
    BadProfile,
    /// There is no such picture structure.
    BadStructure,
    /// A side is out of range, or a length isn't the one that the size asks.
    BadSize,
    /// The picture information is refused, first at the field with this number.
    BadInfo { field: u32 },
    /// The picture that is to be decoded is one of its own references.
    TargetIsReference,
    /// So many slices were handed in, and the picture information gives another number.
    SliceCount { found: u32 },
    /// The time is earlier than the queue was promised.
    EarlierThanPromise { promise: u64 },
    /// The time isn't after the device's time.
    TimeNotAfter { last: u64 },
    /// The slice at this place, from 0, is the first that can't be decoded after those before it.
    Bitstream { slice: u32 },
    /// The slices leave so many macroblocks of the picture out.
    Incomplete { macroblocks: u32 },
    /// No more handles can be given: so many are live, and so many were given.
    HandlesFull { live: u32, given: u64 },
    /// The queue holds as many entries as it can.
    QueueFull,
    /// There was no memory.
    OutOfMemory,
}

impl Refusal {
    /// The status that the caller sees.
    pub fn status(&self) -> VdpStatus
        ensures { result ≡ status_of self.now }
    {
        match self {
            Refusal::InvalidHandle { .. } => VdpStatus::InvalidHandle,
            Refusal::DeviceMismatch { .. } => VdpStatus::HandleDeviceMismatch,
            Refusal::Preempted => VdpStatus::DisplayPreempted,
            Refusal::BadChroma => VdpStatus::InvalidChromaType,
            Refusal::BadYCbCr => VdpStatus::InvalidYCbCrFormat,
            Refusal::BadRgba => VdpStatus::InvalidRgbaFormat,
            Refusal::BadProfile => VdpStatus::InvalidDecoderProfile,
            Refusal::BadStructure => VdpStatus::InvalidMixerPictureStructure,
            Refusal::BadSize => VdpStatus::InvalidSize,
            Refusal::BadInfo { .. }
            | Refusal::TargetIsReference
            | Refusal::SliceCount { .. }
            | Refusal::EarlierThanPromise { .. }
            | Refusal::TimeNotAfter { .. } => VdpStatus::InvalidValue,
            Refusal::Bitstream { .. }
            | Refusal::Incomplete { .. }
            | Refusal::HandlesFull { .. }
            | Refusal::QueueFull => VdpStatus::Error,
            Refusal::OutOfMemory => VdpStatus::Resources,
        }
    }
}

/// The refusal in words, with its numbers.
impl fmt::Display for Refusal {
    ghost output = { λ refusal. Some (refusal_text refusal) };

    fn fmt<W: fmt::Write>(&self, f: &mut fmt::Formatter<W>) -> fmt::Result {
        match self {
            Refusal::InvalidHandle { arg } => write!(f, "handle {arg} names no such object"),
            Refusal::DeviceMismatch { arg } => write!(f, "handle {arg} is of another device"),
            Refusal::Preempted => write!(f, "the device is preempted"),
            Refusal::BadChroma => write!(f, "no such chroma type"),
            Refusal::BadYCbCr => write!(f, "no such YCbCr format"),
            Refusal::BadRgba => write!(f, "no such RGBA format"),
            Refusal::BadProfile => write!(f, "no such decoder profile"),
            Refusal::BadStructure => write!(f, "no such picture structure"),
            Refusal::BadSize => write!(f, "bad size"),
            Refusal::BadInfo { field } => write!(f, "bad picture information in field {field}"),
            Refusal::TargetIsReference => write!(f, "the target is one of the references"),
            Refusal::SliceCount { found } => write!(f, "{found} slices are not as many as told"),
            Refusal::EarlierThanPromise { promise } => {
                write!(f, "earlier than the promised time {promise}")
            }
            Refusal::TimeNotAfter { last } => write!(f, "not after the time {last}"),
            Refusal::Bitstream { slice } => write!(f, "slice {slice} is damaged"),
            Refusal::Incomplete { macroblocks } => write!(
                f,
                "{macroblocks} macroblocks are missing"
            ),
            Refusal::HandlesFull { live, given } => counts(*live, *given, f),
            Refusal::QueueFull => write!(f, "the queue is full"),
            Refusal::OutOfMemory => write!(f, "no memory"),
        }
    }
}

fn counts<W: fmt::Write>(live: u32, given: u64, f: &mut fmt::Formatter<W>) -> fmt::Result
    ensures { DisplaysOnOk W.write_str_gives f.old result (Some (counts_text live given)) f.new }
{
    write!(f, "{live} handles are live, ")?;
    write!(f, "{given} were given")
}
