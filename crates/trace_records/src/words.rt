// Records as words.
ghost use Rattle.std.specs.Prelude.{◌≡◌, ◌≢◌, IfSome, MatchOption};
ghost use Rattle.trace_records.specs.Found.{event_in, low, status_in};
ghost use Rattle.trace_records.specs.Ranges.{IsInRange, IsRecord};
ghost use Rattle.trace_records.specs.Records.{status_word, words_at, words_of};

use super::record::{Event, Record};
use driver_model::PresentStatus;

// A record's six words: the place, the event's number, and what else the event has.
#[derive(Clone, Copy, PartialEq, Eq)]
pub(crate) struct Words {
    pub(crate) place: u64,
    pub(crate) call: u64,
    pub(crate) a: u64,
    pub(crate) b: u64,
    pub(crate) c: u64,
    pub(crate) d: u64,
}

impl Words {
    // The words of an event at a place.
    pub(crate) fn at(place: u64, event: &Event) -> Words
        ensures { result ≡ words_at place event.now }
    {
        let (call, a, b, c, d) = match *event {
            Event::DeviceCreate { name } => (1, name, 0, 0, 0),
            Event::DeviceDestroy { device } => (2, device, 0, 0, 0),
            Event::OutputCreate { name, device } => (3, name, device, 0, 0),
            Event::OutputDestroy { surface } => (4, surface, 0, 0, 0),
            Event::QueueCreate {
                name,
                device,
                window,
            } => (5, name, device, u64::from(window), 0),
            Event::QueueDestroy { queue } => (6, queue, 0, 0, 0),
            Event::QueueDisplay {
                queue,
                surface,
                earliest,
            } => (7, queue, surface, earliest, 0),
            Event::QueryStatus {
                queue,
                surface,
                status,
                time,
            } => (8, queue, surface, status_word(status), time),
            Event::BlockUntilIdle {
                queue,
                surface,
                time,
            } => (9, queue, surface, 0, time),
            Event::GetTime { queue, time } => (10, queue, 0, 0, time),
            Event::Promise { queue, time } => (11, queue, 0, 0, time),
            Event::Advance {
                device,
                flips,
                time,
            } => (12, device, 0, flips, time),
            Event::Flip {
                queue,
                surface,
                time,
            } => (13, queue, surface, 0, time),
            Event::Preempt { device } => (14, device, 0, 0, 0),
        };
        Words {
            place,
            call,
            a: u64::from(a),
            b: u64::from(b),
            c,
            d,
        }
    }

    // The record of these words, if there is one.
    pub(crate) fn record(self) -> Option<Record>
        ensures { MatchOption result ((r : Record) → IsRecord r → words_of r ≢ self) (λ r. IsRecord r × (words_of r ≡ self)) }
    {
        let record = Record {
            place: self.place,
            event: self.event()?,
        };
        if Words::at(record.place, &record.event) == self {
            Some(record)
        } else {
            None
        }
    }

    // The event that the words are taken for: its own words may still be others.
    fn event(self) -> Option<Event>
        ensures is { result ≡ event_in self }
        ensures range { IfSome result IsInRange }
    {
        let a = low(self.a);
        let b = low(self.b);
        match self.call {
            1 => Some(Event::DeviceCreate { name: a }),
            2 => Some(Event::DeviceDestroy { device: a }),
            3 => Some(Event::OutputCreate { name: a, device: b }),
            4 => Some(Event::OutputDestroy { surface: a }),
            5 => Some(Event::QueueCreate {
                name: a,
                device: b,
                window: low(self.c),
            }),
            6 => Some(Event::QueueDestroy { queue: a }),
            7 => Some(Event::QueueDisplay {
                queue: a,
                surface: b,
                earliest: self.c,
            }),
            8 => Some(Event::QueryStatus {
                queue: a,
                surface: b,
                status: status_in(self.c)?,
                time: self.d,
            }),
            9 => Some(Event::BlockUntilIdle {
                queue: a,
                surface: b,
                time: self.d,
            }),
            10 => Some(Event::GetTime {
                queue: a,
                time: self.d,
            }),
            11 => Some(Event::Promise {
                queue: a,
                time: self.d,
            }),
            12 => Some(Event::Advance {
                device: a,
                flips: self.c,
                time: self.d,
            }),
            13 => Some(Event::Flip {
                queue: a,
                surface: b,
                time: self.d,
            }),
            14 => Some(Event::Preempt { device: a }),
            _ => None,
        }
    }
}

// The lower half of a word.
fn low(word: u64) -> u32
    ensures { result ≡ low word }
{
    (word % (1 << 32)) as u32
}

fn status_word(status: PresentStatus) -> u64
    ensures { result ≡ status_word status }
{
    match status {
        PresentStatus::Idle => 0,
        PresentStatus::Queued => 1,
        PresentStatus::Visible => 2,
    }
}

fn status_in(word: u64) -> Option<PresentStatus>
    ensures { result ≡ status_in word }
{
    match word {
        0 => Some(PresentStatus::Idle),
        1 => Some(PresentStatus::Queued),
        2 => Some(PresentStatus::Visible),
        _ => None,
    }
}
