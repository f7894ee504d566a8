// What the cases of held jobs begin with.
ghost use Rattle.std.specs.Prelude.{◌≡◌, IfOk};
ghost use Rattle.driver.specs.Passes.{IsOf};

use crate::answers::answer;
use crate::fault::Fault;
use bits_io::NV12;
use driver::{Driver, Pass};
use driver_model::{CHROMA_420, CONSTRAINED_BASELINE};
use mixer::B8G8R8A8;
use std::alloc::Global;
use std::sync::Wait;

/// How many bytes a video surface of one macroblock has.
pub const SAMPLES: usize = 384;

/// How many bytes an output surface of one macroblock has.
pub const PIXELS: usize = 1024;

/// A device's objects, all of one macroblock: the source's samples are 128, the target's 16, and the bytes of the
/// output surface are 7.
#[derive(Clone, Copy)]
pub struct Objects {
    pub device: u32,
    pub decoder: u32,
    pub mixer: u32,
    pub source: u32,
    pub target: u32,
    pub output: u32,
    pub queue: u32,
}

/// Makes the objects on a device of their own.
pub fn made<R: Wait>(
    rt: &R,
    alloc: Global,
    driver: &Driver,
    pass: Pass,
) -> Result<(Pass, Objects), Fault>
    requires { IsOf pass driver.now }
    ensures { IfOk result (λ made. IsOf made.0 driver.now) }
{
    let (pass, device) = answer(driver.device_create(rt, alloc, pass))?;
    let profile = CONSTRAINED_BASELINE;
    let (pass, decoder) = answer(driver.decoder_create(
        rt, alloc, pass, device, profile, 16, 16, 1,
    ))?;
    let (pass, mixer) = answer(driver.mixer_create(rt, alloc, pass, device, 16, 16))?;
    let (pass, source) = answer(driver.video_create(rt, alloc, pass, device, CHROMA_420, 16, 16))?;
    let (pass, target) = answer(driver.video_create(rt, alloc, pass, device, CHROMA_420, 16, 16))?;
    let (pass, output) = answer(driver.output_create(rt, alloc, pass, device, B8G8R8A8, 16, 16))?;
    let (pass, queue) = answer(driver.queue_create(rt, alloc, pass, device, 0))?;
    let pass = filled(rt, alloc, driver, pass, source, target, output)?;
    Ok((
        pass,
        Objects {
            device,
            decoder,
            mixer,
            source,
            target,
            output,
            queue,
        },
    ))
}

// Gives the surfaces what they begin with.
fn filled<R: Wait>(
    rt: &R,
    alloc: Global,
    driver: &Driver,
    pass: Pass,
    source: u32,
    target: u32,
    output: u32,
) -> Result<Pass, Fault>
    requires { IsOf pass driver.now }
    ensures { IfOk result (λ pass. IsOf pass driver.now) }
{
    let (pass, ()) = answer(driver.video_put_bits(rt, alloc, pass, source, NV12, &[128; SAMPLES]))?;
    let (pass, ()) = answer(driver.video_put_bits(rt, alloc, pass, target, NV12, &[16; SAMPLES]))?;
    let (pass, ()) = answer(driver.output_put_bits(rt, alloc, pass, output, &[7; PIXELS]))?;
    Ok(pass)
}
