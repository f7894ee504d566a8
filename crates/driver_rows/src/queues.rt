// The calls on presentation queues, wishes, and what is kept.
use crate::desk::{Desk, done, named, or_later};
use crate::line::{Line, argument};
use crate::told::{self, Text, both, is_different};
use driver_core::CoreAnswer::Now;
use driver_model::{KeptCounts, Wish};
use plain_driver::PlainKept;
use std::alloc::Global;

impl Desk {
    /// Makes a call on presentation queues, if the line is one.
    pub fn queue_answer(&mut self, alloc: Global, line: Line<'_>) -> Option<Text> {
        let [first, second, third, fourth, _] = line.numbers;
        let a = argument(first);
        let b = argument(second);
        let on = self.names.plain(a);
        let of = self.names.plain(b);
        let core = &mut self.core;
        let plain = &mut self.plain;
        match line.name {
            "queue" => Some(self.queue(alloc, a, b)),
            "queues" => Some(self.queues(alloc, a, second)),
            "flood" => Some(self.flood(alloc, a, b, third)),
            "destroy_queue" => Some(self.destroy_queue(alloc, a)),
            "destroy_queues" => Some(self.destroy_queues(alloc, a, second)),
            "display" => Some(self.display(alloc, a, b, third)),
            "displays" => Some(self.displays(alloc, a, b, third, fourth)),
            "status" => Some(both(
                alloc,
                told::status(alloc, core.query_status(a, b)),
                told::status(alloc, Now(plain.query_status(on, of))),
            )),
            "block" => Some(both(
                alloc,
                told::time(alloc, core.block_until_idle(a, b)),
                told::time(alloc, or_later(plain.block_until_idle(on, of))),
            )),
            "time" => Some(both(
                alloc,
                told::time(alloc, core.get_time(a)),
                told::time(alloc, Now(plain.get_time(on))),
            )),
            "promise" => Some(done(
                alloc,
                core.promise(a, second),
                Now(plain.promise(on, second)),
            )),
            "kept" => Some(both(
                alloc,
                told::kept(alloc, core.kept()),
                told::kept(alloc, Now(Ok(counts(plain.kept())))),
            )),
            _ => self.wish_answer(alloc, line),
        }
    }

    fn wish_answer(&mut self, alloc: Global, line: Line<'_>) -> Option<Text> {
        let [first, second, third, fourth, _] = line.numbers;
        let a = argument(second);
        let b = argument(fourth);
        let on = self.names.plain(a);
        let of = self.names.plain(b);
        match line.name {
            "poll" => Some(both(
                alloc,
                told::holds(alloc, self.core.poll(&[wish_of(first, a, third)])),
                told::holds(alloc, Now(self.plain.poll(&[wish_of(first, on, third)]))),
            )),
            "poll_both" => {
                let wishes = [wish_of(first, a, 0), wish_of(third, b, 0)];
                let plain_wishes = [wish_of(first, on, 0), wish_of(third, of, 0)];
                Some(both(
                    alloc,
                    told::holds(alloc, self.core.poll(&wishes)),
                    told::holds(alloc, Now(self.plain.poll(&plain_wishes))),
                ))
            }
            "wait" => Some(both(
                alloc,
                told::held(alloc, self.core.wait_until(&[wish_of(first, a, third)])),
                told::held(
                    alloc,
                    or_later(self.plain.wait_until(&[wish_of(first, on, third)])),
                ),
            )),
            _ => None,
        }
    }

    fn queue(&mut self, alloc: Global, device: u32, window: u32) -> Text {
        let on = self.names.plain(device);
        let core = self.core.queue_create(alloc, device, window);
        let plain = self.plain.queue_create(alloc, on, window);
        named(alloc, &mut self.names, core, plain)
    }

    fn queues(&mut self, alloc: Global, device: u32, count: u64) -> Text {
        for _ in 1..count.min(2_000) {
            let answer = self.queue(alloc, device, 0)?;
            if is_different(answer.as_str()) {
                return Ok(answer);
            }
        }
        self.queue(alloc, device, 0)
    }

    // So many queues as there can be, each with as many entries of the surface as it takes.
    fn flood(&mut self, alloc: Global, device: u32, surface: u32, time: u64) -> Text {
        let mut answer = self.queue(alloc, device, 0)?;
        for _ in 0..64 {
            let Some(queue) = name_in(answer.as_str()) else {
                return Ok(answer);
            };
            let displayed = self.displays(alloc, queue, surface, time, 64)?;
            if is_different(displayed.as_str()) {
                return Ok(displayed);
            }
            answer = self.queue(alloc, device, 0)?;
        }
        Ok(answer)
    }

    fn destroy_queue(&mut self, alloc: Global, queue: u32) -> Text {
        let on = self.names.plain(queue);
        let core = self.core.queue_destroy(queue);
        let plain = self.plain.queue_destroy(on);
        done(alloc, core, Now(plain))
    }

    // Destroys so many queues, every second one from this one on, in the order in which objects were made.
    fn destroy_queues(&mut self, alloc: Global, first: u32, count: u64) -> Text {
        let mut answer = self.destroy_queue(alloc, first)?;
        for turn in 1..count.min(64) {
            if is_different(answer.as_str()) {
                return Ok(answer);
            }
            let name = self.names.later(first, 2 * turn as usize);
            answer = self.destroy_queue(alloc, name)?;
        }
        Ok(answer)
    }

    fn display(&mut self, alloc: Global, queue: u32, surface: u32, time: u64) -> Text {
        let on = self.names.plain(queue);
        let of = self.names.plain(surface);
        let core = self.core.queue_display(queue, surface, time);
        let plain = self.plain.queue_display(on, of, time);
        done(alloc, core, Now(plain))
    }

    fn displays(&mut self, alloc: Global, queue: u32, surface: u32, time: u64, count: u64) -> Text {
        for _ in 1..count.min(2_000) {
            let answer = self.display(alloc, queue, surface, time)?;
            if is_different(answer.as_str()) {
                return Ok(answer);
            }
        }
        self.display(alloc, queue, surface, time)
    }
}

// The name that an answer tells.
fn name_in(answer: &str) -> Option<u32> {
    let number = answer.strip_prefix("name ")?;
    number.parse().ok()
}

// The wish with this number: 0 for an idle output surface, 1 for a video surface at home, 2 for an output surface at
// home, and each other for a promise past the time, in nanoseconds.
fn wish_of(number: u64, object: u32, time: u64) -> Wish {
    match number {
        0 => Wish::OutputIdle { surface: object },
        1 => Wish::VideoHome { surface: object },
        2 => Wish::OutputHome { surface: object },
        _ => Wish::PromisePast {
            queue: object,
            time,
        },
    }
}

// No more than so many objects and entries live.
fn counts(kept: PlainKept) -> KeptCounts {
    KeptCounts {
        surfaces: argument(kept.surfaces),
        entries: argument(kept.entries),
    }
}
