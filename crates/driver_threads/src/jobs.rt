// A job that one thread begins, and is held in, while another does a deed.
ghost use Rattle.std.specs.Prelude.{◌≡◌, IfOk};
ghost use Rattle.driver.specs.Passes.{IsOf};

use crate::answers::{answer, mix_job, render_job};
use crate::deeds::{Deed, Held, Kind};
use crate::fault::Fault;
use crate::gate::{Holds, wait_for};
use crate::objects::{Objects, PIXELS, SAMPLES, made};
use crate::picture::{SLICE, info_on};
use crate::telling::{bytes, done};
use bits_io::NV12;
use driver::{Answered, Driver, Flips, Pass};
use driver_model::{CHROMA_420, FRAME};
use mixer::B8G8R8A8;
use std::alloc::{AllocError, Global};
use std::sync::Wait;
use std::sync::atomic::{AtomicBool, Ordering};
use std::thread::{Threads, join};
use submission::Submission;

/// What the deed answers, what the end answers, and the target's bytes then.
pub fn told<R: Threads + Wait + Sync>(rt: &R, alloc: Global, held: Held) -> Result<String, Fault> {
    let (driver, pass) = Driver::new(alloc)?;
    let (pass, objects) = made(rt, alloc, &driver, pass)?;
    both(rt, alloc, &driver, pass, objects, held)
}

fn both<R: Threads + Wait + Sync>(
    rt: &R,
    alloc: Global,
    driver: &Driver,
    pass: Pass,
    objects: Objects,
    held: Held,
) -> Result<String, Fault>
    requires { IsOf pass driver.now }
{
    let reached = AtomicBool::new(false);
    let go = AtomicBool::new(false);
    let (a, b) = driver.split(pass);
    let (ended, meant) = join(
        rt,
        || -> Result<(Pass, String), Fault>
            requires { IsOf a driver.now }
            ensures { IfOk result (λ ended. IsOf ended.0 driver.entry.now) }
        {
            let gate = Holds {
                place: held.place,
                reached: &reached,
                go: &go,
            };
            end(rt, alloc, driver, a, objects, held.kind, gate)
        },
        || -> Result<(String, u32), Fault>
            requires { IsOf b driver.now }
        {
            wait_for(&reached);
            let meant = deed(rt, alloc, driver, b, objects, held);
            go.store(true, Ordering::SeqCst);
            meant
        },
    );
    let (pass, end) = ended?;
    let (meant, surface) = meant?;
    let then = look(rt, alloc, driver, pass, objects, held, surface)?;
    Ok(format!(in alloc; "{meant}; the end: {end}; {then}")?)
}

// Begins the job, runs it through the gate, and ends it.
fn end<R: Wait>(
    rt: &R,
    alloc: Global,
    driver: &Driver,
    pass: Pass,
    objects: Objects,
    kind: Kind,
    gate: Holds<'_>,
) -> Result<(Pass, String), Fault>
    requires { IsOf pass driver.now }
    ensures { IfOk result (λ ended. IsOf ended.0 driver.now) }
{
    let mut gate = gate;
    let Objects {
        decoder,
        mixer,
        source,
        target,
        output,
        ..
    } = objects;
    let ended = match kind {
        Kind::Render => {
            let mut slices = Submission::new(alloc);
            slices.push(&SLICE).map_err(|_| Fault::TooLong)?;
            let info = info_on(source);
            let begun = driver.begin_render(rt, alloc, pass, decoder, target, &info, slices);
            driver.end_render(rt, render_job(begun)?.run(&mut gate))
        }
        Kind::Mix => {
            let begun = driver.begin_mix(rt, alloc, pass, mixer, FRAME, source, output);
            driver.end_mix(rt, mix_job(begun)?.run(&mut gate))
        }
    };
    let Answered { pass, result, .. } = ended;
    Ok((pass, done(alloc, result)?))
}

// Does the deed, and answers what came of it, and which surface is to be looked at then.
fn deed<R: Wait>(
    rt: &R,
    alloc: Global,
    driver: &Driver,
    pass: Pass,
    objects: Objects,
    held: Held,
) -> Result<(String, u32), Fault>
    requires { IsOf pass driver.now }
{
    let Objects {
        device,
        decoder,
        mixer,
        source,
        target,
        output,
        queue,
    } = objects;
    let is_mix = held.kind == Kind::Mix;
    let written = if is_mix { output } else { target };
    let answered = match held.deed {
        Deed::Target | Deed::Renew if is_mix => driver.output_destroy(rt, pass, output),
        Deed::Target | Deed::Renew => driver.video_destroy(rt, pass, target),
        Deed::Source => driver.video_destroy(rt, pass, source),
        Deed::Maker if is_mix => driver.mixer_destroy(rt, pass, mixer),
        Deed::Maker => driver.decoder_destroy(rt, pass, decoder),
        Deed::Device => driver.device_destroy(rt, pass, device),
        Deed::Preempt => driver.preempt(rt, pass, device),
        Deed::Display => driver.queue_display(rt, pass, queue, output, 1),
    };
    let text = done(alloc, answered.result)?;
    if held.deed != Deed::Renew {
        return Ok((text, written));
    }
    let (_pass, made) = answer(if is_mix {
        driver.output_create(rt, alloc, answered.pass, device, B8G8R8A8, 16, 16)
    } else {
        driver.video_create(rt, alloc, answered.pass, device, CHROMA_420, 16, 16)
    })?;
    Ok((text, made))
}

// What the surface has, and for a display what a tick shows.
fn look<R: Wait>(
    rt: &R,
    alloc: Global,
    driver: &Driver,
    pass: Pass,
    objects: Objects,
    held: Held,
    surface: u32,
) -> Result<String, Fault>
    requires { IsOf pass driver.now }
{
    if held.deed == Deed::Display {
        let mut flips = Flips::new(alloc)?;
        let ticked = driver.advance(rt, alloc, pass, objects.device, 1, &mut flips);
        if flips.len() == 0 {
            return Ok(done(alloc, ticked.result)?);
        }
        return Ok(bytes(alloc, Ok(()), flips.get(0).pixels.bytes())?);
    }
    if held.kind == Kind::Mix {
        let mut out = [0; PIXELS];
        let got = driver.output_get_bits(rt, pass, surface, &mut out);
        return Ok(bytes(alloc, got.result, &out)?);
    }
    let mut out = [0; SAMPLES];
    let got = driver.video_get_bits(rt, pass, surface, NV12, &mut out);
    Ok(bytes(alloc, got.result, &out)?)
}
