//! What the driver is, in definitions: its calls, what each of them answers, and which lists of calls and
//! answers are those of a driver.
//!
//! The driver is a state, all objects ever made, and each call is one step on it. A history lists what was
//! called and answered, with the caller of each call. It is legal where each step leads from the state that
//! the steps before it left. Threads and shared storage are no part of it; only what one caller has seen of a
//! history is told over the views of device_lock (specs/Passes.antt).
#![tactic(auto)]

mod calls;
mod items;
mod laws;
mod numbers;
mod replies;

pub use calls::{Call, Wish};
pub use items::{Entry, Item, Mark};
pub use laws::{
    ends_have_begins, flips_are_one, histories_lead_to_one_state, idle_surfaces_are_not_named,
    jobs_keep_what_they_owe, last_jobs_may_end, names_are_given_once, notes_are_entries,
    numbers_agree, objects_are_sized, own_items_rest, parts_are_legal, queues_are_sound,
    refusals_leave_the_state, steps_leave_one_state, streams_settle_the_text,
    waiting_calls_are_not_answered,
};
pub use numbers::{
    CHROMA_420, CONSTRAINED_BASELINE, DECODER, DEVICE, FRAME, MANY_NAMES, MAX_DEVICES, MAX_OBJECTS,
    MAX_QUEUES, MAX_REFERENCES, MAX_SIDE, OUTPUT_SURFACE, PRESENTATION_QUEUE, VIDEO_MIXER,
    VIDEO_SURFACE, WEIGHTED_BASELINE,
};
pub use replies::{Answer, Capabilities, Flipped, KeptCounts, PresentStatus, Shown, SurfaceSize};
