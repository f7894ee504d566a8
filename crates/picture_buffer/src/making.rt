// The objects of a buffer's driver.
ghost use Rattle.std.specs.Prelude.{◌≡◌, ℕ, [], IfOk, Ok};
ghost use Rattle.cb_types.specs.SizeMbs.{IsWithinLimits};
ghost use Rattle.driver_model.specs.States.{empty_state};
ghost use Rattle.driver_core.specs.Stands.{Stands};
ghost use Rattle.driver_core.specs.declared.answer.CoreAnswer.TheVariants.{Now};
ghost use Rattle.picture_buffer.specs.Making.{HasMade, HasRoom, IsHandleOrWant, MakesSurface};

use crate::buffer::NUMBERS;
use cb_types::SizeMbs;
use driver_core::{Core, CoreAnswer};
use driver_model::{CHROMA_420, CONSTRAINED_BASELINE, MAX_REFERENCES};
use std::alloc::{AllocError, Global};
use vd_status::Refusal;

// Makes a device and, on it, a decoder for pictures of this size. Both handles are answered.
pub(crate) fn make_decoder(
    core: &mut Core,
    alloc: Global,
    size: SizeMbs,
) -> Result<(u32, u32), AllocError>
    requires limits { IsWithinLimits size }
    requires new { Stands core.old empty_state }
    ensures { IfOk result (λ handles. HasMade core.new handles.0 handles.1 size [] 0) }
{
    let device = made(core.device_create(alloc))?;
    let width = size.luma_width();
    let height = size.luma_height();
    let answer = core.decoder_create(
        alloc,
        device,
        CONSTRAINED_BASELINE,
        width,
        height,
        MAX_REFERENCES,
    );
    let decoder = made(answer)?;
    Ok((device, decoder))
}

// Makes a surface of this size for each number.
pub(crate) fn make_surfaces(
    core: &mut Core,
    alloc: Global,
    device: u32,
    size: SizeMbs,
) -> Result<[u32; NUMBERS], AllocError>
    requires limits { IsWithinLimits size }
    requires decoder { (decoder : ℕ) × HasMade core.old device decoder size [] 0 }
    ensures { IfOk result (λ surfaces. (decoder : ℕ) → HasMade core.old device decoder size [] 0 → HasMade core.new device decoder size surfaces 17) }
{
    let mut surfaces = [0; NUMBERS];
    for number in 0..NUMBERS {
        surfaces[number] = make_surface(core, alloc, device, size)?;
    }
    Ok(surfaces)
}

// Makes a surface of this size.
fn make_surface(
    core: &mut Core,
    alloc: Global,
    device: u32,
    size: SizeMbs,
) -> Result<u32, AllocError>
    requires limits { IsWithinLimits size }
    requires room { HasRoom core.old device size }
    ensures { IfOk result (λ surface. MakesSurface core.old core.new device size surface) }
{
    let width = size.luma_width();
    let height = size.luma_height();
    made(core.video_create(alloc, device, CHROMA_420, width, height))
}

// The handle of what was made.
fn made(answer: CoreAnswer<u32>) -> Result<u32, AllocError>
    requires { IsHandleOrWant answer }
    ensures { IfOk result (λ handle. answer ≡ Now (Ok handle)) }
{
    match answer {
        CoreAnswer::Now(Ok(handle)) => Ok(handle),
        CoreAnswer::Now(Err(Refusal::OutOfMemory)) => Err(AllocError),
        CoreAnswer::Now(Err(_)) | CoreAnswer::Later => unreachable!(),
    }
}
