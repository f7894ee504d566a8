// What the last tick has shown.
use crate::desk::Desk;
use crate::names::Names;
use crate::told::{self, FlipHead, Text, both};
use driver_core::Flip;
use plain_driver::PlainFlipped;
use std::alloc::Global;

impl Desk {
    /// The last tick's flips, as they stand now.
    pub fn shown(&self, alloc: Global) -> Text {
        let count = self.flips.len();
        let plain_count = self.plain_flips.len();
        let mut text = both(
            alloc,
            told::flips(alloc, count),
            told::flips(alloc, plain_count),
        )?;
        for place in 0..count.min(plain_count) {
            let told = flip(
                alloc,
                &self.names,
                self.flips.get(place),
                &self.plain_flips[place],
            )?;
            text.push_str(told.as_str())?;
        }
        Ok(text)
    }
}

fn flip(alloc: Global, names: &Names, core: &Flip, plain: &PlainFlipped) -> Text {
    let core_head = FlipHead {
        queue: core.queue,
        window: core.window,
        surface: core.surface,
        time: core.time,
        width: core.width,
        height: core.height,
        format: core.format,
    };
    let plain_head = FlipHead {
        queue: names.core(plain.queue),
        window: plain.window,
        surface: names.core(plain.surface),
        time: plain.time,
        width: plain.width,
        height: plain.height,
        format: plain.format,
    };
    let text = both(
        alloc,
        told::flip(alloc, core_head, core.pixels.bytes()),
        told::flip(alloc, plain_head, plain.bytes.as_slice()),
    );
    told::same_bytes(alloc, text, core.pixels.bytes(), plain.bytes.as_slice())
}
