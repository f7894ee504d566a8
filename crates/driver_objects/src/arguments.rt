// What calls ask for: sizes, formats and profiles.
ghost use Rattle.std.specs.Prelude.{◌≡◌, IfOk};
ghost use Rattle.cb_types.specs.SizeMbs.{IsWithinLimits};
ghost use Rattle.driver_model.specs.Sizes.{is_profile, is_rgba_format, is_same_size, is_ycbcr_format, pixel_bytes, size_for, size_of_sides, whole_macroblocks};
ghost use Rattle.driver_model.specs.Surfaces.{capabilities};

use bits_io::{NV12, YV12};
use cb_types::{MAX_PICTURE_MBS, SizeMbs};
use driver_model::{CONSTRAINED_BASELINE, Capabilities, MAX_SIDE, WEIGHTED_BASELINE};
use mixer::{B8G8R8A8, R8G8B8A8};
use vd_status::Refusal;

/// The size in macroblocks for sides in luma samples, which are rounded up.
pub fn size_for(width: u32, height: u32) -> Result<SizeMbs, Refusal>
    ensures exact { result ≡ size_for width height }
    ensures sides { IfOk result (λ size. size ≡ size_of_sides width height) }
    ensures within { IfOk result IsWithinLimits }
{
    let size = SizeMbs {
        width: whole_macroblocks(width),
        height: whole_macroblocks(height),
    };
    if size.is_within_limits() {
        Ok(size)
    } else {
        Err(Refusal::BadSize)
    }
}

// How many whole macroblocks a side in luma samples takes.
fn whole_macroblocks(side: u32) -> u32
    ensures { result ≡ whole_macroblocks side }
{
    side.div_ceil(16)
}

/// Whether two sizes are the same.
pub fn is_same_size(a: SizeMbs, b: SizeMbs) -> bool
    ensures { result ≡ is_same_size a b }
{
    a.width == b.width && a.height == b.height
}

/// How many bytes the pixels of a surface take, four each.
pub fn pixel_bytes(size: SizeMbs) -> usize
    requires { IsWithinLimits size }
    ensures { result ≡ pixel_bytes size }
{
    4 * (size.luma_width() as usize * size.luma_height() as usize)
}

/// Whether pixels may have this format.
pub fn is_rgba_format(format: u32) -> bool
    ensures { result ≡ is_rgba_format format }
{
    format == B8G8R8A8 || format == R8G8B8A8
}

/// Whether samples are read and written in this format.
pub fn is_ycbcr_format(format: u32) -> bool
    ensures { result ≡ is_ycbcr_format format }
{
    format == NV12 || format == YV12
}

/// Whether there is this profile.
pub fn is_profile(profile: u32) -> bool
    ensures { result ≡ is_profile profile }
{
    profile == CONSTRAINED_BASELINE || profile == WEIGHTED_BASELINE
}

/// What decoders of a profile take. A profile that there isn't has zeros.
pub fn capabilities(profile: u32) -> Capabilities
    ensures { result ≡ capabilities profile }
{
    if is_profile(profile) {
        Capabilities {
            supported: true,
            max_macroblocks: MAX_PICTURE_MBS,
            max_width: MAX_SIDE,
            max_height: MAX_SIDE,
        }
    } else {
        Capabilities {
            supported: false,
            max_macroblocks: 0,
            max_width: 0,
            max_height: 0,
        }
    }
}
