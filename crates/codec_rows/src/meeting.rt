// Two slices that are constructed beside each other: their gates wait for each other.
use crate::infos::{info_of, is_accepted};
use crate::line::{Line, bytes_of};
use crate::renders::{no_refs, outcome_text};
use crate::told::Text;
use cb_types::SizeMbs;
use decoder_render::Prepared;
use std::alloc::Global;
use std::sync::atomic::{AtomicBool, Ordering};
use std::thread::Threads;
use vd_outside::Gate;

// No gate waits for more turns than these.
const TURNS: u32 = 1_000_000_000;

// A gate of the slice with this number, which waits until the other slice has come to its own.
#[derive(Drop)]
struct Meets<'a> {
    number: u32,
    is_here: &'a AtomicBool,
    is_there: &'a AtomicBool,
    has_met: bool,
}

impl Gate for Meets<'_> {
    fn pass(&mut self, at: u32) {
        if at != self.number {
            return;
        }
        self.is_here.store(true, Ordering::SeqCst);
        for _ in 0..TURNS {
            if self.is_there.load(Ordering::SeqCst) {
                self.has_met = true;
                return;
            }
        }
    }
}

/// Decodes two slices whose gates wait for each other, if the line asks for it.
pub fn answer<R: Threads + Sync>(rt: &R, alloc: Global, line: Line<'_>) -> Option<Text> {
    let [fields, bytes, ..] = line.words;
    match line.name {
        "meet" => Some(met(rt, alloc, fields, bytes)),
        _ => None,
    }
}

fn met<R: Threads + Sync>(rt: &R, alloc: Global, fields: &str, bytes: &str) -> Text {
    let info = info_of(fields);
    let bytes = bytes_of(alloc, bytes)?;
    if bytes.len() > 1_000 || !is_accepted(&info) {
        return format!(in alloc; "not accepted");
    }
    let size = SizeMbs {
        width: 2,
        height: 1,
    };
    let mut prepared = Prepared::new(alloc, size, &bytes)?;
    let first = AtomicBool::new(false);
    let second = AtomicBool::new(false);
    let mut gates = [
        Meets {
            number: 0,
            is_here: &first,
            is_there: &second,
            has_met: false,
        },
        Meets {
            number: 1,
            is_here: &second,
            is_there: &first,
            has_met: false,
        },
    ];
    let outcome = prepared.decode_gated(rt, &info, &no_refs(), &mut gates);
    let outcome = outcome_text(alloc, outcome)?;
    let (a, b) = (gates[0].has_met, gates[1].has_met);
    format!(in alloc; "{a} {b}, {outcome}")
}
