// The statuses of vdpau.h that the driver answers.
ghost use Rattle.std.specs.Prelude.{◌≡◌, Some};
ghost use Rattle.vd_status.specs.Texts.{status_text};

use std::fmt;

/// What a call answers its caller (vdpau.h, VdpStatus).
#[derive(Clone, Copy, Debug, PartialEq, Eq)]
pub enum VdpStatus {
    /// The call did what it was asked to.
    Ok,
    /// The display was taken away from the device.
    DisplayPreempted,
    /// A handle names no object of the kind that the call wants.
    InvalidHandle,
    /// There is no such chroma type.
    InvalidChromaType,
    /// There is no such format of YCbCr samples.
    InvalidYCbCrFormat,
    /// There is no such format of RGBA samples.
    InvalidRgbaFormat,
    /// There is no such decoder profile.
    InvalidDecoderProfile,
    /// There is no such picture structure.
    InvalidMixerPictureStructure,
    /// A width, a height or a length is out of range.
    InvalidSize,
    /// An argument of another kind is out of range.
    InvalidValue,
    /// There was no memory.
    Resources,
    /// Two handles belong to two devices.
    HandleDeviceMismatch,
    /// An error for which there is no other status.
    Error,
}

/// What VdpGetErrorString tells of the status.
impl fmt::Display for VdpStatus {
    ghost output = { λ status. Some (status_text status) };

    fn fmt<W: fmt::Write>(&self, f: &mut fmt::Formatter<W>) -> fmt::Result {
        f.write_str(text(*self))
    }
}

fn text(status: VdpStatus) -> &'static str
    ensures { result.now ≡ status_text status }
{
    match status {
        VdpStatus::Ok => "no error",
        VdpStatus::DisplayPreempted => "the display was preempted",
        VdpStatus::InvalidHandle => "no object of this kind has this handle",
        VdpStatus::InvalidChromaType => "unknown chroma type",
        VdpStatus::InvalidYCbCrFormat => "unknown YCbCr format",
        VdpStatus::InvalidRgbaFormat => "unknown RGBA format",
        VdpStatus::InvalidDecoderProfile => "unknown decoder profile",
        VdpStatus::InvalidMixerPictureStructure => "unknown picture structure",
        VdpStatus::InvalidSize => "size out of range",
        VdpStatus::InvalidValue => "value out of range",
        VdpStatus::Resources => "not enough memory",
        VdpStatus::HandleDeviceMismatch => "objects of different devices",
        VdpStatus::Error => "another error",
    }
}
