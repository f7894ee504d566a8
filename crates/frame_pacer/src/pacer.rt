//! The pictures of one stream against the ticks of a script.
ghost use Rattle.std.specs.Prelude.{◌≡◌};
ghost use Rattle.frame_pacer.specs.Paced.{settled_time};

use clock_script::Script;
use script_ticks::{ScriptTick, preemption_of, tick_from};

/// Says of the pictures of a stream, which come out in output order, at which ticks they are shown.
///
/// It keeps no picture: whether the last one is shown is settled only when the next one comes out, or none does.
#[derive(Drop)]
pub struct Pacer {
    script: Script,
    // The time from one picture to the next, in nanoseconds.
    period: u64,
    // The number of the line that preempts the stream.
    preemption: Option<usize>,
    // How many pictures came out.
    count: u64,
    // The tick of the last of them, which may stand behind the preemption.
    tick: Option<ScriptTick>,
}

impl Pacer {
    ghost use Rattle.std.specs.Prelude.{◌≡◌, ◌+◌, ◌*◌, ℕ, List, drop};
    ghost use Rattle.clock_script.specs.declared.script.ScriptLine.{ScriptLine};
    ghost use Rattle.script_ticks.specs.Ticks.{first_tick};
    ghost use Rattle.player_laws.specs.Shown.{time_in};
    ghost use Rattle.frame_pacer.specs.Paced.{IsLast, IsPaced, IsSettled, MayGoOn, last_tick, promised};

    /// No picture came out. Times are in nanoseconds.
    pub fn new(script: Script, stream: u32, period: u64) -> Pacer
        ensures { IsPaced result script stream period 0 }
    {
        let preemption = preemption_of(&script, stream);
        Pacer {
            script,
            period,
            preemption,
            count: 0,
            tick: None,
        }
    }

    /// The next picture comes out: the time at which the one before it is shown, if it is.
    pub fn next(&mut self) -> Option<u64>
        requires { MayGoOn self.old }
        ensures settled { (script : List ScriptLine) (stream period count : ℕ) → IsPaced self.old script stream period count → IsSettled script stream period count result }
        ensures paced { (script : List ScriptLine) (stream period count : ℕ) → IsPaced self.old script stream period count → IsPaced self.new script stream period (count + 1) }
    {
        let tick = self.next_tick();
        let shown = settled(self.in_time(), tick);
        self.tick = tick;
        self.count += 1;
        shown
    }

    // The tick of the picture that comes out next.
    fn next_tick(&self) -> Option<ScriptTick>
        requires { MayGoOn self.now }
        ensures { (script : List ScriptLine) (stream period count : ℕ) → IsPaced self.now script stream period count → result ≡ last_tick script period (count + 1) }
    {
        match self.tick {
            Some(tick) => self.tick_behind(tick.line),
            None if self.count == 0 => self.tick_behind(0),
            None => None,
        }
    }

    // The same, of the lines from this one on.
    fn tick_behind(&self, line: usize) -> Option<ScriptTick>
        requires { MayGoOn self.now }
        ensures { (script : List ScriptLine) (stream period count : ℕ) → IsPaced self.now script stream period count
            → first_tick ((count + 1) * period) line (drop line script) ≡ last_tick script period (count + 1)
            → result ≡ last_tick script period (count + 1) }
    {
        match self.period.checked_mul(self.count + 1) {
            Some(time) => tick_from(&self.script, line, time),
            None => None,
        }
    }

    // The time of the last picture's tick, if its line stands before the preemption.
    fn in_time(&self) -> Option<u64>
        ensures { result ≡ time_in self.now.preemption self.now.tick }
    {
        match (self.tick, self.preemption) {
            (None, _) => None,
            (Some(tick), Some(line)) if line <= tick.line => None,
            (Some(tick), _) => Some(tick.time),
        }
    }

    /// The time at which the last picture is shown if no other one comes out.
    pub fn last(&self) -> Option<u64>
        ensures { (script : List ScriptLine) (stream period count : ℕ) → IsPaced self.now script stream period count → IsLast script stream period count result }
    {
        self.in_time()
    }

    /// The time before which nothing further is shown: the last picture's tick, or the greatest time, which no tick
    /// has, where that picture and all behind it are too late; 0 where no picture came out.
    pub fn promise(&self) -> u64
        ensures { (script : List ScriptLine) (stream period count : ℕ) → IsPaced self.now script stream period count → result ≡ promised script stream period count }
    {
        if self.count == 0 {
            return 0;
        }
        self.in_time().unwrap_or(u64::MAX)
    }
}

// When the last picture is shown, if it is at this time where nothing follows and the next one has this tick.
fn settled(last: Option<u64>, next: Option<ScriptTick>) -> Option<u64>
    ensures { result ≡ settled_time last next }
{
    match (last, next) {
        (Some(time), Some(tick)) if tick.time == time => None,
        (last, _) => last,
    }
}
