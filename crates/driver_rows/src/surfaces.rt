// The calls on video and output surfaces.
use crate::desk::{Desk, done, named, or_later};
use crate::line::{Line, argument};
use crate::told::{self, Text, both};
use driver_core::CoreAnswer;
use driver_core::CoreAnswer::Now;
use std::alloc::{AllocError, Global};

// So many bytes a buffer has at most.
const MOST_BYTES: u64 = 1_048_576;

impl Desk {
    /// Makes a call on surfaces, if the line is one.
    pub fn surface_answer(&mut self, alloc: Global, line: Line<'_>) -> Option<Text> {
        let [first, second, third, fourth, _] = line.numbers;
        let a = argument(first);
        let b = argument(second);
        let c = argument(third);
        let d = argument(fourth);
        let on = self.names.plain(a);
        let core = &mut self.core;
        let plain = &mut self.plain;
        let names = &mut self.names;
        match line.name {
            "video" => Some(named(
                alloc,
                names,
                core.video_create(alloc, a, b, c, d),
                plain.video_create(alloc, on, b, c, d),
            )),
            "parameters" => Some(both(
                alloc,
                told::size(alloc, core.video_parameters(a)),
                told::size(alloc, Now(plain.video_parameters(on))),
            )),
            "get_video" => Some(self.get_video(alloc, a, b, third)),
            "put_video" => Some(self.put_video(alloc, a, b, third, fourth)),
            "destroy_video" => Some(done(
                alloc,
                core.video_destroy(a),
                Now(plain.video_destroy(on)),
            )),
            "output" => Some(named(
                alloc,
                names,
                core.output_create(alloc, a, b, c, d),
                plain.output_create(alloc, on, b, c, d),
            )),
            "get_output" => Some(self.get_output(alloc, a, second)),
            "put_output" => Some(self.put_output(alloc, a, second, third)),
            "destroy_output" => Some(done(
                alloc,
                core.output_destroy(a),
                Now(plain.output_destroy(on)),
            )),
            _ => None,
        }
    }

    fn get_video(&mut self, alloc: Global, surface: u32, format: u32, length: u64) -> Text {
        let mut out = buffer_of(alloc, length, 0)?;
        let mut plain_out = buffer_of(alloc, length, 0)?;
        let on = self.names.plain(surface);
        let core = self.core.video_get_bits(surface, format, &mut out);
        let plain = or_later(self.plain.video_get_bits(on, format, &mut plain_out));
        got(alloc, core, &out, plain, &plain_out)
    }

    fn put_video(
        &mut self,
        alloc: Global,
        surface: u32,
        format: u32,
        length: u64,
        byte: u64,
    ) -> Text {
        let bytes = buffer_of(alloc, length, byte)?;
        let on = self.names.plain(surface);
        let core = self.core.video_put_bits(alloc, surface, format, &bytes);
        let plain = or_later(self.plain.video_put_bits(alloc, on, format, &bytes));
        done(alloc, core, plain)
    }

    fn get_output(&mut self, alloc: Global, surface: u32, length: u64) -> Text {
        let mut out = buffer_of(alloc, length, 0)?;
        let mut plain_out = buffer_of(alloc, length, 0)?;
        let on = self.names.plain(surface);
        let core = self.core.output_get_bits(surface, &mut out);
        let plain = or_later(self.plain.output_get_bits(on, &mut plain_out));
        got(alloc, core, &out, plain, &plain_out)
    }

    fn put_output(&mut self, alloc: Global, surface: u32, length: u64, byte: u64) -> Text {
        let bytes = buffer_of(alloc, length, byte)?;
        let on = self.names.plain(surface);
        let core = self.core.output_put_bits(alloc, surface, &bytes);
        let plain = or_later(self.plain.output_put_bits(alloc, on, &bytes));
        done(alloc, core, plain)
    }
}

// A buffer of so many bytes, `MOST_BYTES` at most, which are all this one, or 255 where it is greater.
fn buffer_of(alloc: Global, length: u64, byte: u64) -> Result<Vec<u8>, AllocError> {
    vec![in alloc; byte.min(255) as u8; length.min(MOST_BYTES) as usize]
}

// The answer of both drivers to a call that fills a buffer, whatever each has left there.
fn got(
    alloc: Global,
    core: CoreAnswer<()>,
    out: &[u8],
    plain: CoreAnswer<()>,
    plain_out: &[u8],
) -> Text {
    let text = both(
        alloc,
        told::got(alloc, core, out),
        told::got(alloc, plain, plain_out),
    );
    told::same_bytes(alloc, text, out, plain_out)
}
