// What is written for an answer, on one line.
use driver_core::CoreAnswer;
use driver_core::CoreAnswer::{Later, Now};
use driver_model::{Capabilities, KeptCounts, PresentStatus, Shown, SurfaceSize};
use std::alloc::{AllocError, Global};
use vd_status::Refusal;

/// The text of an answer, if there is memory for it.
pub type Text = Result<String, AllocError>;

/// The answer of both drivers. Where they differ, both answers are told.
pub fn both(alloc: Global, core: Text, plain: Text) -> Text {
    let core = core?;
    let plain = plain?;
    if core.as_str() == plain.as_str() {
        Ok(core)
    } else {
        format!(in alloc; "DIFFERENT: the core says {core}; the slow driver says {plain}")
    }
}

/// Whether a text tells that the drivers differ.
pub fn is_different(text: &str) -> bool {
    text.starts_with("DIFFERENT")
}

/// That a call waits.
pub fn waits(alloc: Global) -> Text {
    format!(in alloc; "waits")
}

/// That a job was begun.
pub fn begun(alloc: Global) -> Text {
    format!(in alloc; "begun")
}

/// That a caller has no job of this place.
pub fn no_job(alloc: Global) -> Text {
    format!(in alloc; "no such job")
}

/// Why a call was refused.
pub fn refused(alloc: Global, refusal: Refusal) -> Text {
    format!(in alloc; "{refusal}")
}

/// The answer of a call that tells nothing.
pub fn done(alloc: Global, answer: CoreAnswer<()>) -> Text {
    match answer {
        Now(Ok(())) => format!(in alloc; "done"),
        Now(Err(refusal)) => refused(alloc, refusal),
        Later => waits(alloc),
    }
}

/// The name of a new object.
pub fn name(alloc: Global, answer: CoreAnswer<u32>) -> Text {
    match answer {
        Now(Ok(name)) => format!(in alloc; "name {name}"),
        Now(Err(refusal)) => refused(alloc, refusal),
        Later => waits(alloc),
    }
}

/// A time.
pub fn time(alloc: Global, answer: CoreAnswer<u64>) -> Text {
    match answer {
        Now(Ok(time)) => format!(in alloc; "time {time}"),
        Now(Err(refusal)) => refused(alloc, refusal),
        Later => waits(alloc),
    }
}

/// A chroma type and the sides of a surface.
pub fn size(alloc: Global, answer: CoreAnswer<SurfaceSize>) -> Text {
    match answer {
        Now(Ok(size)) => {
            let SurfaceSize {
                chroma,
                width,
                height,
            } = size;
            format!(in alloc; "chroma type {chroma}, {width} by {height}")
        }
        Now(Err(refusal)) => refused(alloc, refusal),
        Later => waits(alloc),
    }
}

/// What decoders can do.
pub fn capabilities(alloc: Global, answer: CoreAnswer<Capabilities>) -> Text {
    match answer {
        Now(Ok(can)) => {
            let supported = can.supported;
            let count = can.max_macroblocks;
            let width = can.max_width;
            let height = can.max_height;
            format!(in alloc; "supported {supported}, {count} macroblocks, {width} by {height}")
        }
        Now(Err(refusal)) => refused(alloc, refusal),
        Later => waits(alloc),
    }
}

/// A surface's status and time.
pub fn status(alloc: Global, answer: CoreAnswer<Shown>) -> Text {
    match answer {
        Now(Ok(shown)) => {
            let time = shown.first_time;
            let status = match shown.status {
                PresentStatus::Visible => "visible",
                PresentStatus::Queued => "queued",
                PresentStatus::Idle => "idle",
            };
            format!(in alloc; "{status}, {time}")
        }
        Now(Err(refusal)) => refused(alloc, refusal),
        Later => waits(alloc),
    }
}

/// Which wish holds.
pub fn holds(alloc: Global, answer: CoreAnswer<Option<u32>>) -> Text {
    match answer {
        Now(Ok(Some(place))) => format!(in alloc; "wish {place} holds"),
        Now(Ok(None)) => format!(in alloc; "no wish holds"),
        Now(Err(refusal)) => refused(alloc, refusal),
        Later => waits(alloc),
    }
}

/// Which wish held, where a call waits for one.
pub fn held(alloc: Global, answer: CoreAnswer<u32>) -> Text {
    match answer {
        Now(Ok(place)) => format!(in alloc; "wish {place} holds"),
        Now(Err(refusal)) => refused(alloc, refusal),
        Later => waits(alloc),
    }
}

/// How much is kept.
pub fn kept(alloc: Global, answer: CoreAnswer<KeptCounts>) -> Text {
    match answer {
        Now(Ok(counts)) => {
            let surfaces = counts.surfaces;
            let entries = counts.entries;
            format!(in alloc; "kept: surfaces {surfaces}, entries {entries}")
        }
        Now(Err(refusal)) => refused(alloc, refusal),
        Later => waits(alloc),
    }
}

/// Bytes: how many they are, the first four, and whether these repeat.
pub fn bytes(alloc: Global, bytes: &[u8]) -> Text {
    let count = bytes.len();
    match bytes {
        [a, b, c, d, rest @ ..] => {
            let how = if bytes.starts_with(rest) {
                "each four"
            } else {
                "at first"
            };
            format!(in alloc; "{count} bytes, {how} {a} {b} {c} {d}")
        }
        _ => format!(in alloc; "{count} bytes"),
    }
}

/// The bytes that a call has put into a buffer.
pub fn got(alloc: Global, answer: CoreAnswer<()>, buffer: &[u8]) -> Text {
    match answer {
        Now(Ok(())) => bytes(alloc, buffer),
        Now(Err(refusal)) => refused(alloc, refusal),
        Later => waits(alloc),
    }
}

/// The text, where both drivers have these bytes.
pub fn same_bytes(alloc: Global, text: Text, core: &[u8], plain: &[u8]) -> Text {
    let text = text?;
    if core == plain {
        Ok(text)
    } else {
        format!(in alloc; "DIFFERENT bytes, {text}")
    }
}

/// How many flips a tick had. The text of each ([`flip`]) stands behind it.
pub fn flips(alloc: Global, count: usize) -> Text {
    format!(in alloc; "flips {count}")
}

/// A flip without its pixels: a queue, its window, the surface that it has shown from a time on, in nanoseconds, and
/// that surface's sides and format.
#[derive(Clone, Copy)]
pub struct FlipHead {
    pub queue: u32,
    pub window: u32,
    pub surface: u32,
    pub time: u64,
    pub width: u32,
    pub height: u32,
    pub format: u32,
}

/// A flip with the bytes of its pixels.
pub fn flip(alloc: Global, flip: FlipHead, pixels: &[u8]) -> Text {
    let when = when(alloc, flip)?;
    let surface = surface(alloc, flip)?;
    let pixels = bytes(alloc, pixels)?;
    format!(in alloc; "{when}, {surface}, {pixels}")
}

fn when(alloc: Global, flip: FlipHead) -> Text {
    let queue = flip.queue;
    let window = flip.window;
    let surface = flip.surface;
    let time = flip.time;
    format!(in alloc; "; queue {queue} in window {window}: surface {surface} at {time}")
}

fn surface(alloc: Global, flip: FlipHead) -> Text {
    let width = flip.width;
    let height = flip.height;
    let format = flip.format;
    format!(in alloc; "{width} by {height}, format {format}")
}

/// How many items the history has.
pub fn items(alloc: Global, items: u64) -> Text {
    format!(in alloc; "items {items}")
}
