// Lines that are no calls, or count by themselves.
use crate::desk::Desk;
use crate::line::{Line, argument};
use crate::scripts::{script, script_in};
use crate::told::{self, Text, both};
use driver_core::{Core, CoreAnswer};
use std::alloc::Global;

impl Desk {
    /// Does what the line asks, if it is one that isn't counted as a call.
    pub fn aside(&mut self, alloc: Global, line: Line<'_>) -> Option<Text> {
        let [first, second, ..] = line.numbers;
        match line.name {
            "items" => Some(both(
                alloc,
                told::items(alloc, self.items),
                told::items(alloc, self.plain.items),
            )),
            "flips" => Some(self.shown(alloc)),
            "end" => Some(self.end(alloc, first, second)),
            "renew" => Some(renew(alloc, first)),
            "script" => Some(script(alloc, argument(first), script_in(line.rest))),
            _ => self.worked.take(alloc, line),
        }
    }
}

// A core of its own, on which so many mixers are made, each when the one before was destroyed: the last name, and how
// many names were those of the next generation.
fn renew(alloc: Global, count: u64) -> Text {
    let mut core = Core::new(alloc)?;
    let answer = core.device_create(alloc);
    let CoreAnswer::Now(Ok(device)) = answer else {
        return told::name(alloc, answer);
    };
    let mut last = 0u32;
    let mut next = 0u64;
    for _ in 0..count.min(100_000) {
        let answer = core.mixer_create(alloc, device, 16, 16);
        let CoreAnswer::Now(Ok(name)) = answer else {
            return told::name(alloc, answer);
        };
        if name.wrapping_sub(last) == 8_192 {
            next = next.saturating_add(1);
        }
        core.mixer_destroy(name);
        last = name;
    }
    format!(in alloc; "name {last}, {next} of a next generation")
}
