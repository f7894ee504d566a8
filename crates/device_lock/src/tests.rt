ghost use Rattle.std.specs.Prelude.{◌≡◌, ◌+◌, ◌%◌, ◌^◌, length, IfOk};
ghost use Rattle.std.specs.Thread.{IsSync};
ghost use mathlib.Core.List.{IsPrefix};
ghost use Rattle.device_lock.specs.Passes.{lock_id, pass_lock, pass_view};

use crate::{Kept, Lock, LockPass};
use std::alloc::Global;
use std::collections::LinkedList;
use std::marker::Brand;
use std::sync::Wait;
use std::test::Fail;
use std::thread::{Threads, join};

/// How many items were logged, as far as 64 bits show it.
#[derive(Drop)]
pub struct Tally {
    count: u64,
}

pub struct Tick {
    pub by: LinkedList<u64>,
}

impl Kept for Tally {
    type Item = Tick;

    ghost caller = { λ t. t.by };

    ghost stands = { λ tally history. tally.count ≡ length history % 2 ^ 64 };

    ghost at_rest = { λ own. Unit {0} };

    ghost empty_rests = { tt };
}

// Counts one more, and answers its place.
fn count_one<R: Wait>(rt: &R, lock: &Lock<Tally>, pass: LockPass<Tally>) -> (LockPass<Tally>, u64)
    requires { pass_lock pass ≡ lock_id lock.now }
    ensures lock { pass_lock result.0 ≡ pass_lock pass }
    ensures own { length (pass_view result.0).own ≡ length (pass_view pass).own + 1 }
    ensures seen { IsPrefix (pass_view pass).seen (pass_view result.0).seen }
{
    let mut held = lock.take(rt, pass);
    let tally = held.value();
    tally.count = tally.count.wrapping_add(1);
    let (logged, place) = held.log::<Brand>(lock);
    (logged.give_back(lock), place)
}

// Counts so many times, and answers the places, unless they do not rise or there is no memory.
fn count_many<R: Wait>(
    rt: &R,
    alloc: Global,
    lock: &Lock<Tally>,
    pass: LockPass<Tally>,
    times: u32,
) -> (LockPass<Tally>, Option<Vec<u64>>)
    requires { pass_lock pass ≡ lock_id lock.now }
    ensures { pass_lock result.0 ≡ pass_lock pass }
{
    let mut pass = pass;
    let mut places = Vec::new(alloc);
    for _ in 0..times {
        let (next, place) = count_one(rt, lock, pass);
        pass = next;
        if places.last().is_some_and(|last| *last >= place) || places.push(place).is_err() {
            return (pass, None);
        }
    }
    (pass, Some(places))
}

// The places of both.
fn together(a: Option<Vec<u64>>, b: Option<Vec<u64>>) -> Option<Vec<u64>> {
    let mut all = a?;
    all.extend_from_slice(b?.as_slice()).ok()?;
    Some(all)
}

// Two threads count so many times each, with passes split from one, which are joined at the end.
fn count_by_two<R: Threads + Wait + Sync>(
    rt: &R,
    alloc: Global,
    lock: &Lock<Tally>,
    pass: LockPass<Tally>,
    times: u32,
) -> (LockPass<Tally>, Option<Vec<u64>>)
    requires { pass_lock pass ≡ lock_id lock.now }
    ensures { pass_lock result.0 ≡ pass_lock pass }
{
    let (a, b) = lock.split(pass);
    let (a, b) = join(
        rt,
        || -> (LockPass<Tally>, Option<Vec<u64>>)
            requires { pass_lock a ≡ lock_id lock.now }
            ensures { pass_lock result.0 ≡ pass_lock a }
        { count_many(rt, alloc, lock, a, times) },
        || -> (LockPass<Tally>, Option<Vec<u64>>)
            requires { pass_lock b ≡ lock_id lock.now }
            ensures { pass_lock result.0 ≡ pass_lock b }
        { count_many(rt, alloc, lock, b, times) },
    );
    (lock.join(a.0, b.0), together(a.1, b.1))
}

// The same by four threads, with passes split twice.
fn count_by_four<R: Threads + Wait + Sync>(
    rt: &R,
    alloc: Global,
    lock: &Lock<Tally>,
    pass: LockPass<Tally>,
    times: u32,
) -> (LockPass<Tally>, Option<Vec<u64>>)
    requires { pass_lock pass ≡ lock_id lock.now }
    ensures { pass_lock result.0 ≡ pass_lock pass }
{
    let (a, b) = lock.split(pass);
    let (a, b) = join(
        rt,
        || -> (LockPass<Tally>, Option<Vec<u64>>)
            requires { IsSync R.row × (pass_lock a ≡ lock_id lock.now) }
            ensures { pass_lock result.0 ≡ pass_lock a }
        { count_by_two(rt, alloc, lock, a, times) },
        || -> (LockPass<Tally>, Option<Vec<u64>>)
            requires { IsSync R.row × (pass_lock b ≡ lock_id lock.now) }
            ensures { pass_lock result.0 ≡ pass_lock b }
        { count_by_two(rt, alloc, lock, b, times) },
    );
    (lock.join(a.0, b.0), together(a.1, b.1))
}

// What was counted, in a turn in which nothing is logged.
fn look<R: Wait>(rt: &R, lock: &Lock<Tally>, pass: LockPass<Tally>) -> (LockPass<Tally>, u64)
    requires { pass_lock pass ≡ lock_id lock.now }
    ensures lock { pass_lock result.0 ≡ pass_lock pass }
    ensures own { (pass_view result.0).own ≡ (pass_view pass).own }
{
    let mut held = lock.take(rt, pass);
    let count = held.value().count;
    (held.give_back(lock), count)
}

// The places are the numbers below n, each once.
fn are_all_below(mut places: Vec<u64>, n: u64) -> Result<bool, Fail> {
    places.sort()?;
    Ok(places.iter().copied().eq(0..n))
}

#[test]
fn two_threads_log_into_one_history(rt: HostRuntime) -> Result<(), Fail> {
    let (lock, pass) = Lock::new(rt.alloc(), Tally { count: 0 })?;
    let (pass, places) = count_by_two(&rt, rt.alloc(), &lock, pass, 1000);
    let places = places.ok_or("the places rise, and there is memory for them")?;
    assert!(rt; are_all_below(places, 2000)?);
    let (pass, count) = look(&rt, &lock, pass);
    assert_eq!(rt; count, 2000);
    let (_, place) = count_one(&rt, &lock, pass);
    assert_eq!(rt; place, 2000, "a turn without an item takes no place");
    Ok(())
}

#[test]
fn four_threads_log_with_passes_of_a_tree(rt: HostRuntime) -> Result<(), Fail> {
    let (lock, pass) = Lock::new(rt.alloc(), Tally { count: 0 })?;
    let (pass, places) = count_by_four(&rt, rt.alloc(), &lock, pass, 250);
    let places = places.ok_or("the places rise, and there is memory for them")?;
    assert!(rt; are_all_below(places, 1000)?);
    let (_, count) = look(&rt, &lock, pass);
    assert_eq!(rt; count, 1000);
    Ok(())
}
