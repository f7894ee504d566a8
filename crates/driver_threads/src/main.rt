//! The shared driver from two threads: each line of standard input is a case, and each line of standard output what
//! came of it. A line that is no case is written as it is.
//!
//!     render PLACE DEED, mix PLACE DEED   one thread begins the job and is held in it at this place, 0 before the work
//!                                         or 1 behind it, while the other does the deed; then it is let go and ends.
//!                                         What is told: the deed's answers, the end's, and the target's bytes then
//!     two CALLS                           two threads make so many calls each, with passes split from one behind its
//!                                         first call: which places these have, and which one the joined pass calls at
//!     wait                                one thread waits until a surface is idle, the other ticks
//!     refused WORD                        the answer of a call that is refused (refusals.rt)
//!
//! Deeds: `target`, `source`, `maker` and `device` destroy what is written, what is read, the decoder or the mixer, and
//! the device; `preempt` takes the display away; `renew` destroys the target and makes another surface; `display`
//! puts the target of a mix behind a queue, and a tick behind the end shows it.
#![tactic(auto)]

mod answers;
mod callers;
mod deeds;
mod fault;
mod gate;
mod jobs;
mod objects;
mod picture;
mod refusals;
mod telling;
mod waiting;

use deeds::{Case, case_of};
use fault::Fault;
use std::alloc::Global;
use std::sync::Wait;
use std::thread::Threads;

fn main(rt: HostRuntime) -> Result<(), Fault> {
    for text in rt.lines(rt.alloc()) {
        let text = text?;
        match case_of(text.as_str()) {
            Some(case) => {
                let answer = told(&rt, rt.alloc(), case)?;
                println!(rt; "{text}: {answer}")?;
            }
            None => println!(rt; "{text}")?,
        }
    }
    Ok(())
}

// What came of a case.
fn told<R: Threads + Wait + Sync>(rt: &R, alloc: Global, case: Case<'_>) -> Result<String, Fault> {
    match case {
        Case::Held(held) => jobs::told(rt, alloc, held),
        Case::Two { calls } => callers::told(rt, alloc, calls),
        Case::Waits => waiting::told(rt, alloc),
        Case::Refused(word) => refusals::told(rt, alloc, word),
    }
}
