// A caller that waits until another ticks.
ghost use Rattle.std.specs.Prelude.{IfOk};
ghost use Rattle.driver.specs.Passes.{IsOf};

use crate::fault::Fault;
use driver::{Driver, Flips, Pass};
use std::alloc::Global;
use std::sync::Wait;
use std::thread::{Threads, join};
use vd_status::Refusal;

/// When the surface was shown for which one thread waits, and how many flips the other has seen.
pub fn told<R: Threads + Wait + Sync>(rt: &R, alloc: Global) -> Result<String, Fault> {
    let (driver, pass) = Driver::new(alloc)?;
    let waiting = display_two(rt, alloc, &driver, pass)?;
    let (idle, flips) = wait_and_tick(rt, alloc, &driver, waiting);
    let time = idle?;
    let flips = flips.ok_or(Fault::Places)?;
    Ok(format!(in alloc; "shown at {time}, {flips} flips")?)
}

// A queue of a device, on which two surfaces wait, for the times 1 and 2.
struct Waiting {
    pass: Pass,
    device: u32,
    queue: u32,
    first: u32,
}

fn display_two<R: Wait>(
    rt: &R,
    alloc: Global,
    driver: &Driver,
    pass: Pass,
) -> Result<Waiting, Refusal>
    requires { IsOf pass driver.now }
    ensures { IfOk result (λ waiting. IsOf waiting.pass driver.now) }
{
    let made = driver.device_create(rt, alloc, pass);
    let device = made.result?;
    let made = driver.queue_create(rt, alloc, made.pass, device, 0);
    let queue = made.result?;
    let made = driver.output_create(rt, alloc, made.pass, device, 0, 16, 16);
    let first = made.result?;
    let made = driver.output_create(rt, alloc, made.pass, device, 0, 16, 16);
    let second = made.result?;
    let shown = driver.queue_display(rt, made.pass, queue, first, 1);
    shown.result?;
    let shown = driver.queue_display(rt, shown.pass, queue, second, 2);
    shown.result?;
    Ok(Waiting {
        pass: shown.pass,
        device,
        queue,
        first,
    })
}

// Ticks to the times 1 and 2. Answers how many flips there were.
fn tick_twice<R: Wait>(
    rt: &R,
    alloc: Global,
    driver: &Driver,
    pass: Pass,
    device: u32,
) -> (Pass, Option<usize>)
    requires { IsOf pass driver.now }
    ensures { IsOf result.0 driver.now }
{
    let Ok(mut flips) = Flips::new(alloc) else {
        return (pass, None);
    };
    let first = driver.advance(rt, alloc, pass, device, 1, &mut flips);
    let shown = flips.len();
    if first.result.is_err() {
        return (first.pass, None);
    }
    let second = driver.advance(rt, alloc, first.pass, device, 2, &mut flips);
    let count = second
        .result
        .ok()
        .map(|()| shown.saturating_add(flips.len()));
    (second.pass, count)
}

// One thread waits until the first surface is idle, while another ticks.
fn wait_and_tick<R: Threads + Wait + Sync>(
    rt: &R,
    alloc: Global,
    driver: &Driver,
    waiting: Waiting,
) -> (Result<u64, Refusal>, Option<usize>)
    requires { IsOf waiting.pass driver.now }
{
    let Waiting {
        pass,
        device,
        queue,
        first,
    } = waiting;
    let (a, b) = driver.split(pass);
    let (a, b) = join(
        rt,
        || -> (Pass, Result<u64, Refusal>)
            requires { IsOf a driver.now }
            ensures { IsOf result.0 driver.entry.now }
        {
            let idle = driver.block_until_idle(rt, a, queue, first);
            (idle.pass, idle.result)
        },
        || -> (Pass, Option<usize>)
            requires { IsOf b driver.now }
            ensures { IsOf result.0 driver.entry.now }
        { tick_twice(rt, alloc, driver, b, device) },
    );
    (a.1, b.1)
}
