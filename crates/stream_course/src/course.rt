// What is done next of a stream.
ghost use Rattle.std.specs.Prelude.{◌≡◌, ◌<◌, ◌≤◌, ◌∷◌, [], ℕ, List, true, false, IfNone, IfOk, IfSome, OnErr, OnOk, length};
ghost use Rattle.std.specs.declared.option.Option.{Option};
ghost use Rattle.clock_script.specs.Script.{IsLegal};
ghost use Rattle.access_units.specs.Pictures.{Picture};
ghost use Rattle.accepted_pictures.specs.Files.{Decoded};
ghost use Rattle.accepted_pictures.specs.Streams.{MayFeed};
ghost use Rattle.clock_script.specs.declared.script.ScriptLine.{ScriptLine};
ghost use Rattle.frame_pacer.specs.Paced as pacing;
ghost use Rattle.output_order.specs.OutputOrder as order;
ghost use Rattle.output_order.specs.Waiting as waiting;
ghost use Rattle.stream_calls.specs.StreamCalls.{Stream};
ghost use Rattle.stream_course.specs.Standing.{HasCome, IsAnswered, IsOut, IsStopped, StandsFor, place_of};
ghost use Rattle.stream_course.specs.Way.{Way, at_start, fed_on, with_decoded, with_failure};

use access_units::{Acceptor, Next, Unsettled};
use clock_script::Script;
use frame_pacer::Pacer;
use output_order::Waiting;
use std::alloc::{AllocError, Global};

/// How a stream's pictures end.
#[derive(Clone, Copy, Debug, PartialEq, Eq)]
pub enum Ending {
    /// All of its file is accepted.
    Whole,
    /// The access unit at this place isn't accepted; `large` says that the first refused unit of it is a sequence
    /// set of larger pictures than this decoder takes.
    Refused { offset: u64, large: bool },
}

/// What is to be done next.
#[derive(Drop)]
pub enum Turn {
    /// More bytes, or the end, are wanted.
    Hungry,
    /// This picture is to be decoded, and then to be settled. Its number is how many were decoded before it.
    Decode(Unsettled),
    /// The picture of this number came out, and is shown at this time, or not at all.
    Out { number: u32, time: Option<u64> },
    /// Nothing further is shown before this time.
    Promise(u64),
    /// Nothing further is to be done.
    Over(Ending),
}

// Where a picture stands in the output order.
#[derive(Clone, Copy)]
struct Place {
    poc: i32,
    period: bool,
    depth: u32,
}

/// Says of a stream, whose bytes are fed in pieces, what is to be done next.
///
/// Pictures are decoded in the order of the bytes and come out in output order. Whether one is shown is settled when
/// the next one has come out, or none follows. Where memory is wanted, a call changes nothing that a later answer
/// shows.
#[derive(Drop)]
pub struct Course {
    acceptor: Acceptor,
    // How many bytes were fed.
    fed: u64,
    // The picture that is to be settled.
    unsettled: Option<Place>,
    // How many pictures were decoded.
    decoded: u32,
    waiting: Waiting,
    pacer: Pacer,
    // The picture that came out last, until it is said whether it is shown.
    last: Option<u32>,
    // What was promised last.
    promised: u64,
    ending: Option<Ending>,
}

impl Course {
    /// Nothing was fed. `period` is the time from one picture to the next, in nanoseconds.
    pub fn new(alloc: Global, script: Script, stream: u32, period: u64) -> Course
        requires { (streams : ℕ) × IsLegal streams script }
        ensures { StandsFor result (record { number = stream; period = period; script = script }) at_start }
    {
        Course {
            acceptor: Acceptor::new(alloc),
            fed: 0,
            unsettled: None,
            decoded: 0,
            waiting: Waiting::new(),
            pacer: Pacer::new(script, stream, period),
            last: None,
            promised: 0,
            ending: None,
        }
    }

    /// Takes the next bytes of the file; an empty slice is its end.
    pub fn feed(&mut self, bytes: &[u8]) -> Result<(), AllocError>
        requires { (of : Stream) × ((way : Way) × StandsFor self.old of way × MayFeed way.fed bytes.now) }
        ensures fed { OnOk result ((of : Stream) (way : Way) → StandsFor self.old of way →
            MayFeed way.fed bytes.now → StandsFor self.new of (fed_on way bytes.now)) }
        ensures untouched { OnErr result ((of : Stream) (way : Way) → StandsFor self.old of way →
            StandsFor self.new of way) }
    {
        self.acceptor.feed(bytes)?;
        self.fed += bytes.len() as u64;
        Ok(())
    }

    /// How many bytes were fed.
    pub fn fed(&self) -> u64
        ensures { (of : Stream) (way : Way) → StandsFor self.now of way → result ≡ length way.fed.text }
    {
        self.fed
    }

    /// How many pictures were decoded.
    pub fn decoded(&self) -> u32
        ensures { (of : Stream) (way : Way) → StandsFor self.now of way → result ≡ length way.fed.decoded }
    {
        self.decoded
    }

    /// What is to be done next. A picture that was given to be decoded is to be settled first.
    pub fn next(&mut self) -> Result<Turn, AllocError>
        requires { (of : Stream) × ((way : Way) × StandsFor self.old of way × (way.given ≡ None)) }
        ensures turn { IfOk result (λ turn. (of : Stream) (way : Way) → StandsFor self.old of way → way.given ≡ None →
            IsAnswered self.new of way turn) }
        ensures untouched { OnErr result ((of : Stream) (way : Way) → StandsFor self.old of way → way.given ≡ None →
            StandsFor self.new of way) }
    {
        if let Some(time) = self.promise() {
            return Ok(Turn::Promise(time));
        }
        if let Some(number) = self.waiting.pop() {
            return Ok(self.came_out(number));
        }
        if let Some(ending) = self.ending {
            return Ok(self.finish(ending));
        }
        match self.acceptor.next()? {
            Next::Hungry => Ok(Turn::Hungry),
            Next::Picture(unsettled) => Ok(self.give(unsettled)),
            Next::End => Ok(self.end(Ending::Whole)),
            Next::Refused { offset, large } => Ok(self.end(Ending::Refused { offset, large })),
        }
    }

    // The picture is to be decoded.
    fn give(&mut self, unsettled: Unsettled) -> Turn
        ensures turn { result ≡ Turn.Decode unsettled }
        ensures kept { self.new ≡ record (self.old) {
          unsettled =
              place_of unsettled.begun.poc unsettled.begun.period unsettled.depth;
        } }
    {
        self.unsettled = Some(Place {
            poc: unsettled.begun.poc,
            period: unsettled.begun.period,
            depth: unsettled.depth,
        });
        Turn::Decode(unsettled)
    }

    /// Whether the picture that was given came to a whole one, at this place of the file.
    pub fn settle(&mut self, offset: u64, whole: bool)
        requires { (of : Stream) × ((way : Way) × ((picture : Picture) ×
            StandsFor self.old of way × (way.given ≡ Some picture))) }
        ensures decoded { whole ≡ true → (of : Stream) (way : Way) (one : Decoded) → StandsFor self.old of way →
            way.given ≡ Some one.picture → StandsFor self.new of (with_decoded way one) }
        ensures failed { whole ≡ false → (of : Stream) (way : Way) (picture : Picture) → StandsFor self.old of way →
            way.given ≡ Some picture → offset ≡ picture.offset → StandsFor self.new of (with_failure way picture) }
    {
        self.acceptor.settle(whole);
        let place = self.unsettled.take();
        if !whole {
            self.stop(Ending::Refused {
                offset,
                large: false,
            });
            return;
        }
        if let Some(Place { poc, period, depth }) = place {
            let _ = self.waiting.push(self.decoded, poc, period, depth);
            self.decoded += 1;
        }
    }

    // A time that wasn't promised yet, before which nothing further is shown.
    fn promise(&mut self) -> Option<u64>
        ensures promised { IfSome result (λ time. (of : Stream) (way : Way) → StandsFor self.old of way →
            IsAnswered self.new of way (Turn.Promise time)) }
        ensures none { IfNone result (self.new ≡ self.old) }
    {
        let time = self.due();
        self.promise_to(time)
    }

    // The time before which nothing further is shown: the tick of the picture that came out last.
    fn due(&self) -> u64
        ensures { (script : List ScriptLine) (stream period count : ℕ) →
            pacing.IsPaced self.now.pacer script stream period count → result ≡ pacing.promised script stream period count }
    {
        self.pacer.promise()
    }

    // When that picture is shown if none follows it.
    fn last_time(&self) -> Option<u64>
        ensures { (script : List ScriptLine) (stream period count : ℕ) →
            pacing.IsPaced self.now.pacer script stream period count → pacing.IsLast script stream period count result }
    {
        self.pacer.last()
    }

    fn promise_to(&mut self, time: u64) -> Option<u64>
        ensures same { IfSome result (λ promised. promised ≡ time) }
        ensures later { IfSome result (λ promised. self.old.promised < promised) }
        ensures kept { IfSome result (λ promised. self.new ≡ record (self.old) { promised = promised }) }
        ensures earlier { IfNone result (time ≤ self.old.promised) }
        ensures none { IfNone result (self.new ≡ self.old) }
    {
        if time <= self.promised {
            return None;
        }
        self.promised = time;
        Some(time)
    }

    // This picture comes out: what becomes of the one before it, or what its tick promises.
    fn came_out(&mut self, number: u32) -> Turn
        requires { (of : Stream) × ((way : Way) × HasCome self.old of way number) }
        ensures { (of : Stream) (way : Way) → HasCome self.old of way number → IsAnswered self.new of way result }
    {
        let time = self.pacer.next();
        match self.last.replace(number) {
            Some(before) => Turn::Out {
                number: before,
                time,
            },
            None => {
                self.promised = self.due();
                Turn::Promise(self.promised)
            }
        }
    }

    // No further picture is decoded.
    fn stop(&mut self, ending: Ending)
        ensures waits { (h : order.History) → waiting.StandsFor self.old.waiting h →
            waiting.StandsFor self.new.waiting (order.ending h) }
        ensures kept { self.new ≡ record (self.old) { ending = Some ending; waiting = self.new.waiting } }
    {
        self.ending = Some(ending);
        self.waiting.end();
    }

    // The same, and what comes next.
    fn end(&mut self, ending: Ending) -> Turn
        requires { (of : Stream) × ((way : Way) × IsStopped self.old of way ending) }
        ensures { (of : Stream) (way : Way) → IsStopped self.old of way ending → IsAnswered self.new of way result }
    {
        self.stop(ending);
        match self.waiting.pop() {
            Some(number) => self.came_out(number),
            None => self.finish(ending),
        }
    }

    // Behind the last picture that came out: what becomes of it, the last promise, and the end.
    fn finish(&mut self, ending: Ending) -> Turn
        ensures { (of : Stream) (way : Way) → IsOut self.old of way ending → IsAnswered self.new of way result }
    {
        if let Some(number) = self.last.take() {
            return Turn::Out {
                number,
                time: self.last_time(),
            };
        }
        match self.promise_to(u64::MAX) {
            Some(time) => Turn::Promise(time),
            None => Turn::Over(ending),
        }
    }
}
