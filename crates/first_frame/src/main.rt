//! A player of two threads on one driver: one decodes pictures of a stream and mixes each into an output surface, the
//! other displays these and ticks the clock. Each flip is a line: its time, its size and its first pixel.
#![tactic(auto)]

ghost use Rattle.std.specs.Prelude.{◌≡◌, IfOk};
ghost use Rattle.driver.specs.Passes.{IsOf, view};
ghost use Rattle.driver_model.specs.Passes.{AreAtRest};

mod answers;
mod fault;
mod player;
mod stream;

use answers::{answer, mix_job, render_job};
use crossbeam_channel::{Receiver, Sender, unbounded};
use driver::{Driver, Flips, Pass};
use driver_model::FRAME;
use fault::Fault;
use player::Player;
use std::sync::Wait;
use std::thread;
use vd_outside::OpenGate;

fn main(rt: HostRuntime) -> Result<(), Fault> {
    let bytes = stream::read(&rt)?;
    let (driver, pass) = Driver::new(rt.alloc())?;
    let (player, pass) = Player::new(&rt, rt.alloc(), driver, pass)?;
    let (mixed, to_show) = unbounded(rt.alloc())?;
    let (a, b) = player.driver.split(pass);
    let (a, b) = thread::join(
        &rt,
        || -> Result<Pass, Fault>
            requires { IsOf a player.driver }
        { decode(&rt, &player, a, &bytes, mixed) },
        || show(&rt, &player, b, to_show),
    );
    let _seen_by_both = player.driver.join(a?, b?);
    Ok(())
}

// Decodes as many pictures as there are output surfaces, mixes each into the next one, and sends that to be shown.
fn decode<R: Wait>(
    rt: &R,
    player: &Player,
    mut pass: Pass,
    bytes: &[u8],
    mixed: Sender<u32>,
) -> Result<Pass, Fault>
    requires { IsOf pass player.now.driver }
    ensures { IfOk result (λ pass. IsOf pass player.now.driver) }
{
    let (alloc, driver) = (player.alloc, &player.driver);
    let mut stream = stream::opened(alloc, bytes)?;
    for output in player.outputs.iter() {
        let picture = stream::next(&mut stream)?;
        let (video, slices) = (player.video(picture.begun.frame)?, picture.submission);
        let info = player.named(&picture.begun.info);
        let begun = driver.begin_render(rt, alloc, pass, player.decoder, video, &info, slices);
        let done = render_job(begun)?.run(&mut OpenGate);
        let (back, ()) = answer(driver.end_render(rt, done))?;
        stream.settle(true);
        let begun = driver.begin_mix(rt, alloc, back, player.mixer, FRAME, video, *output);
        let done = mix_job(begun)?.run(&mut OpenGate);
        pass = answer(driver.end_mix(rt, done))?.0;
        mixed.send(rt, *output).map_err(|_| Fault::Gone)?;
    }
    Ok(pass)
}

// Displays each surface that comes, at the next time, ticks, and writes what is shown.
fn show<R: Wait + Print>(
    rt: &R,
    player: &Player,
    mut pass: Pass,
    to_show: Receiver<u32>,
) -> Result<Pass, Fault>
    requires { IsOf pass player.now.driver × AreAtRest (view pass).own }
    ensures { IfOk result (λ pass. IsOf pass player.now.driver × AreAtRest (view pass).own) }
{
    let (mut flips, mut time) = (Flips::new(player.alloc)?, 0u64);
    for output in to_show.iter(rt) {
        time = time.saturating_add(40);
        let shown = player
            .driver
            .queue_display(rt, pass, player.queue, output, time);
        let (back, ()) = answer(shown)?;
        let ticked = player
            .driver
            .advance(rt, player.alloc, back, player.device, time, &mut flips);
        pass = answer(ticked)?.0;
        for place in 0..flips.len() {
            let flip = flips.get(place);
            if let [blue, green, red, ..] = flip.pixels.bytes() {
                let (width, height) = (flip.width, flip.height);
                println!(rt; "{}: {width} by {height}, {red} {green} {blue}", flip.time)?;
            }
        }
    }
    Ok(pass)
}
