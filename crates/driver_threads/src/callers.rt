// Two callers whose passes are split from one.
ghost use Rattle.driver.specs.Passes.{IsOf, view};
ghost use Rattle.driver_model.specs.Passes.{AreAtRest};

use crate::fault::Fault;
use driver::{Driver, Pass};
use std::alloc::Global;
use std::sync::Wait;
use std::thread::{Threads, join};

/// Which places the calls of two callers have, with so many calls each: behind one call that was made before their
/// passes were split, and before one that is made with both joined.
pub fn told<R: Threads + Wait + Sync>(rt: &R, alloc: Global, calls: u32) -> Result<String, Fault> {
    let (driver, pass) = Driver::new(alloc)?;
    let before = driver.kept(rt, pass);
    let first = before.place.saturating_add(1);
    let (pass, places) = call_by_two(rt, alloc, &driver, before.pass, calls);
    let mut places = places.ok_or(Fault::Places)?;
    places.sort()?;
    let count = places.len();
    let is_each = places.iter().enumerate().all(|(index, found)| *found
        == first.saturating_add(index as u64));
    let then = driver.kept(rt, pass).place;
    Ok(format!(in alloc;
        "{count} places, from {first} on each once: {is_each}; joined, then {then}"
    )?)
}

// Makes a device and a queue, and reads the queue's time until it has made so many calls. Answers their places, unless a
// call is refused, the time isn't 0, the places don't rise, or there is no memory.
fn call_often<R: Wait>(
    rt: &R,
    alloc: Global,
    driver: &Driver,
    pass: Pass,
    calls: u32,
) -> (Pass, Option<Vec<u64>>)
    requires { IsOf pass driver.now × AreAtRest (view pass).own }
    ensures { IsOf result.0 driver.now × AreAtRest (view result.0).own }
{
    let mut places = Vec::new(alloc);
    let made = driver.device_create(rt, alloc, pass);
    let Ok(device) = made.result else {
        return (made.pass, None);
    };
    let first = made.place;
    let made = driver.queue_create(rt, alloc, made.pass, device, 0);
    let Ok(queue) = made.result else {
        return (made.pass, None);
    };
    let mut pass = made.pass;
    if places.push(first).is_err() || places.push(made.place).is_err() {
        return (pass, None);
    }
    for _ in 2..calls {
        let told = driver.get_time(rt, pass, queue);
        pass = told.pass;
        if told.result != Ok(0)
            || places.last().is_some_and(|last| *last >= told.place)
            || places.push(told.place).is_err()
        {
            return (pass, None);
        }
    }
    (pass, Some(places))
}

// The places of both.
fn together(a: Option<Vec<u64>>, b: Option<Vec<u64>>) -> Option<Vec<u64>> {
    let mut all = a?;
    all.extend_from_slice(b?.as_slice()).ok()?;
    Some(all)
}

// Two threads make so many calls each, with passes split from one, which are joined then.
fn call_by_two<R: Threads + Wait + Sync>(
    rt: &R,
    alloc: Global,
    driver: &Driver,
    pass: Pass,
    calls: u32,
) -> (Pass, Option<Vec<u64>>)
    requires { IsOf pass driver.now × AreAtRest (view pass).own }
    ensures { IsOf result.0 driver.now }
{
    let (a, b) = driver.split(pass);
    let (a, b) = join(
        rt,
        || -> (Pass, Option<Vec<u64>>)
            requires { IsOf a driver.now × AreAtRest (view a).own }
            ensures { IsOf result.0 driver.entry.now × AreAtRest (view result.0).own }
        { call_often(rt, alloc, driver, a, calls) },
        || -> (Pass, Option<Vec<u64>>)
            requires { IsOf b driver.now × AreAtRest (view b).own }
            ensures { IsOf result.0 driver.entry.now × AreAtRest (view result.0).own }
        { call_often(rt, alloc, driver, b, calls) },
    );
    (driver.join(a.0, b.0), together(a.1, b.1))
}
