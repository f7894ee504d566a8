// Sizes, as calls ask for them.
ghost use Rattle.std.specs.Prelude.{◌≡◌, ◌≤◌, IfOk};
ghost use Rattle.cb_types.specs.SizeMbs.{IsWithinLimits};
ghost use Rattle.driver_model.specs.Refusals.{refused_if};
ghost use Rattle.driver_model.specs.Sizes.{pixel_bytes, sample_bytes, size_for, size_of_sides, whole_macroblocks};

use cb_types::SizeMbs;
use vd_status::Refusal;

// Refuses where the test holds.
pub fn refused_if(test: bool, refusal: Refusal) -> Result<(), Refusal>
    ensures { result ≡ refused_if test refusal }
{
    if test { Err(refusal) } else { Ok(()) }
}

fn whole_macroblocks(side: u32) -> u32
    ensures { result ≡ whole_macroblocks side }
{
    ((u64::from(side) + 15) / 16) as u32
}

// The size that a create asks for by sides in luma samples.
pub fn size_for(width: u32, height: u32) -> Result<SizeMbs, Refusal>
    ensures value { result ≡ size_for width height }
    ensures size { IfOk result (λ size. size ≡ size_of_sides width height) }
    ensures limits { IfOk result IsWithinLimits }
{
    let size = SizeMbs {
        width: whole_macroblocks(width),
        height: whole_macroblocks(height),
    };
    if size.is_within_limits() {
        Ok(size)
    } else {
        Err(Refusal::BadSize)
    }
}

// The bytes of the samples of a video surface.
pub fn sample_bytes(size: SizeMbs) -> usize
    requires { IsWithinLimits size }
    ensures { result ≡ sample_bytes size }
{
    size.luma_width() as usize * size.luma_height() as usize * 3 / 2
}

// The bytes of the pixels of an output surface.
pub fn pixel_bytes(size: SizeMbs) -> usize
    requires { IsWithinLimits size }
    ensures value { result ≡ pixel_bytes size }
    ensures few { result ≤ 67108864 }
{
    4 * (size.luma_width() as usize * size.luma_height() as usize)
}
