// The calls on devices, decoders and mixers.
use crate::desk::{Desk, done, named};
use crate::line::{Line, argument};
use crate::told::{self, Text, both, is_different};
use driver_core::CoreAnswer::Now;
use std::alloc::Global;

// The matrix with which a mixer copies Y to red, green and blue: the factors of Y, Cb and Cr for each, in 1/256, and
// then the three constants.
const GREY: [i32; 12] = [256, 0, 0, 0, 256, 0, 0, 0, 256, 0, 0, 0];

impl Desk {
    /// Makes a call on devices, decoders and mixers, if the line is one.
    pub fn device_answer(&mut self, alloc: Global, line: Line<'_>) -> Option<Text> {
        let [first, second, third, fourth, fifth] = line.numbers;
        let a = argument(first);
        let b = argument(second);
        let c = argument(third);
        let d = argument(fourth);
        let e = argument(fifth);
        let on = self.names.plain(a);
        let core = &mut self.core;
        let plain = &mut self.plain;
        let names = &mut self.names;
        match line.name {
            "device" => Some(named(
                alloc,
                names,
                core.device_create(alloc),
                plain.device_create(),
            )),
            "destroy_device" => Some(done(
                alloc,
                core.device_destroy(a),
                Now(plain.device_destroy(on)),
            )),
            "preempt" => Some(done(alloc, core.preempt(a), Now(plain.preempt(on)))),
            "query" => Some(both(
                alloc,
                told::capabilities(alloc, core.decoder_query(a, b)),
                told::capabilities(alloc, Now(plain.decoder_query(on, b))),
            )),
            "decoder" => Some(named(
                alloc,
                names,
                core.decoder_create(alloc, a, b, c, d, e),
                plain.decoder_create(on, b, c, d, e),
            )),
            "destroy_decoder" => Some(done(
                alloc,
                core.decoder_destroy(a),
                Now(plain.decoder_destroy(on)),
            )),
            "mixer" => Some(named(
                alloc,
                names,
                core.mixer_create(alloc, a, b, c),
                plain.mixer_create(on, b, c),
            )),
            "mixers" => Some(self.mixers(alloc, a, second)),
            "grey" => Some(done(
                alloc,
                core.mixer_set_matrix(a, GREY),
                Now(plain.mixer_set_matrix(on, GREY)),
            )),
            "destroy_mixer" => Some(done(
                alloc,
                core.mixer_destroy(a),
                Now(plain.mixer_destroy(on)),
            )),
            _ => None,
        }
    }

    fn mixers(&mut self, alloc: Global, device: u32, count: u64) -> Text {
        for _ in 1..count.min(2_000) {
            let answer = self.small_mixer(alloc, device)?;
            if is_different(answer.as_str()) {
                return Ok(answer);
            }
        }
        self.small_mixer(alloc, device)
    }

    fn small_mixer(&mut self, alloc: Global, device: u32) -> Text {
        let on = self.names.plain(device);
        let core = self.core.mixer_create(alloc, device, 16, 16);
        let plain = self.plain.mixer_create(on, 16, 16);
        named(alloc, &mut self.names, core, plain)
    }
}
