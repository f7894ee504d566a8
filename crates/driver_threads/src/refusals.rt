// Calls that are refused, each on a driver of its own.
ghost use Rattle.driver.specs.Passes.{IsOf};

use crate::answers::{answer, mix_job, render_job};
use crate::fault::Fault;
use crate::objects::{Objects, SAMPLES, made};
use crate::picture::{SLICE, info_on};
use crate::telling::done;
use driver::{Driver, Flips, Pass};
use std::alloc::Global;
use std::sync::Wait;
use submission::Submission;
use vd_outside::OpenGate;
use vd_status::Refusal;

/// What the call answers that this word names.
pub fn told<R: Wait>(rt: &R, alloc: Global, word: &str) -> Result<String, Fault> {
    let (driver, pass) = Driver::new(alloc)?;
    let (pass, objects) = made(rt, alloc, &driver, pass)?;
    let answered = match word {
        "slices" | "incomplete" | "bitstream" | "same" => {
            rendered(rt, alloc, &driver, pass, objects, word)?
        }
        "queue" => displayed(rt, &driver, pass, objects)?,
        "devices" => filled(rt, alloc, &driver, pass)?,
        "promise" | "time" | "preempted" | "other" => twice(
            rt, alloc, &driver, pass, objects, word,
        )?,
        _ => once(rt, alloc, &driver, pass, objects, word),
    };
    Ok(done(alloc, answered)?)
}

// One call with an argument that isn't taken.
fn once<R: Wait>(
    rt: &R,
    alloc: Global,
    driver: &Driver,
    pass: Pass,
    objects: Objects,
    word: &str,
) -> Result<(), Refusal>
    requires { IsOf pass driver.now }
{
    let Objects {
        device,
        mixer,
        source,
        output,
        ..
    } = objects;
    match word {
        "chroma" => driver
            .video_create(rt, alloc, pass, device, 1, 16, 16)
            .result
            .map(|_| ()),
        "rgba" => driver
            .output_create(rt, alloc, pass, device, 2, 16, 16)
            .result
            .map(|_| ()),
        "profile" => driver
            .decoder_create(rt, alloc, pass, device, 2, 16, 16, 1)
            .result
            .map(|_| ()),
        "size" => driver
            .mixer_create(rt, alloc, pass, device, 0, 16)
            .result
            .map(|_| ()),
        "references" => driver
            .decoder_create(rt, alloc, pass, device, 0, 16, 16, 17)
            .result
            .map(|_| ()),
        "ycbcr" => driver
            .video_get_bits(rt, pass, source, 2, &mut [0; SAMPLES])
            .result,
        "structure" => {
            let job = mix_job(driver.begin_mix(rt, alloc, pass, mixer, 1, source, output))?;
            driver.end_mix(rt, job.run(&mut OpenGate)).result
        }
        _ => driver.video_destroy(rt, pass, output).result,
    }
}

// A render whose target is its reference, which lacks its slice, which has none, or whose slice is cut.
fn rendered<R: Wait>(
    rt: &R,
    alloc: Global,
    driver: &Driver,
    pass: Pass,
    objects: Objects,
    word: &str,
) -> Result<Result<(), Refusal>, Fault>
    requires { IsOf pass driver.now }
{
    let Objects {
        decoder,
        source,
        target,
        ..
    } = objects;
    let mut slices = Submission::new(alloc);
    if word == "bitstream" {
        slices.push(&SLICE[..5]).map_err(|_| Fault::TooLong)?;
    }
    let reference = if word == "same" { target } else { source };
    let mut info = info_on(reference);
    if word == "incomplete" {
        info.slice_count = 0;
    }
    match render_job(driver.begin_render(rt, alloc, pass, decoder, target, &info, slices)) {
        Ok(job) => Ok(driver.end_render(rt, job.run(&mut OpenGate)).result),
        Err(refusal) => Ok(Err(refusal)),
    }
}

// A call that another one before it makes wrong.
fn twice<R: Wait>(
    rt: &R,
    alloc: Global,
    driver: &Driver,
    pass: Pass,
    objects: Objects,
    word: &str,
) -> Result<Result<(), Refusal>, Fault>
    requires { IsOf pass driver.now }
{
    let Objects {
        device,
        output,
        queue,
        ..
    } = objects;
    match word {
        "promise" => {
            let (pass, ()) = answer(driver.promise(rt, pass, queue, 5))?;
            Ok(driver.queue_display(rt, pass, queue, output, 4).result)
        }
        "time" => {
            let mut flips = Flips::new(alloc)?;
            let (pass, ()) = answer(driver.advance(rt, alloc, pass, device, 3, &mut flips))?;
            Ok(
                driver
                    .advance(rt, alloc, pass, device, 3, &mut flips)
                    .result,
            )
        }
        "preempted" => {
            let (pass, ()) = answer(driver.preempt(rt, pass, device))?;
            Ok(driver.queue_display(rt, pass, queue, output, 4).result)
        }
        _ => {
            let (pass, other) = answer(driver.device_create(rt, alloc, pass))?;
            let (pass, queue) = answer(driver.queue_create(rt, alloc, pass, other, 0))?;
            Ok(driver.queue_display(rt, pass, queue, output, 4).result)
        }
    }
}

// A display on a queue that has as many entries as a queue takes.
fn displayed<R: Wait>(
    rt: &R,
    driver: &Driver,
    pass: Pass,
    objects: Objects,
) -> Result<Result<(), Refusal>, Fault>
    requires { IsOf pass driver.now }
{
    let mut pass = pass;
    for time in 0..64 {
        let entered = driver.queue_display(rt, pass, objects.queue, objects.output, time);
        pass = answer(entered)?.0;
    }
    Ok(
        driver
            .queue_display(rt, pass, objects.queue, objects.output, 64)
            .result,
    )
}

// A device beside as many as a driver takes, of which one was made before.
fn filled<R: Wait>(
    rt: &R,
    alloc: Global,
    driver: &Driver,
    pass: Pass,
) -> Result<Result<(), Refusal>, Fault>
    requires { IsOf pass driver.now }
{
    let mut pass = pass;
    for _ in 1..16 {
        pass = answer(driver.device_create(rt, alloc, pass))?.0;
    }
    Ok(driver.device_create(rt, alloc, pass).result.map(|_| ()))
}
