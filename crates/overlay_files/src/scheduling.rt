// Schedules from their texts.
ghost use Rattle.std.specs.Prelude.{◌≡◌, ℕ, IfErr, IfOk};
ghost use Rattle.overlay_files.specs.ScheduleReading.{BlamesLine};
ghost use Rattle.overlay_files.specs.Schedules.{HaveOneSchedule, IsSchedule};

use super::fields::find;
use super::lines::read_line;
use super::schedule::Schedule;
use std::alloc::Global;

/// Why a text isn't read as a schedule.
#[derive(Clone, Copy, Debug, PartialEq, Eq)]
pub enum ScheduleFault {
    /// The line with this number, from 1, is the first that no schedule has there.
    Line(u64),
    /// There is no memory for the lines.
    OutOfMemory,
}

/// Reads a schedule.
///
/// It has up to 256 lines `show <from> <to> <stream> <x> <y> <name>`, each ended by a line feed, which the
/// last one may lack. Numbers are in decimal without leading zeros: times in nanoseconds up to 2^63 - 1,
/// the first below the second; a stream up to 15; a column and a row up to 4,095. The name is UTF-8 without
/// a space, isn't empty and doesn't begin with a hyphen.
pub fn read_schedule(alloc: Global, bytes: &[u8]) -> Result<Schedule, ScheduleFault>
    ensures ok { IfOk result (λ schedule. IsSchedule schedule bytes.now) }
    ensures err { IfErr result (λ fault. BlamesLine bytes.now fault) }
{
    let mut schedule = Schedule::new(alloc);
    let mut at = 0;
    while at < bytes.len() {
        let rest = &bytes[at..];
        let end = find(rest, b'\n');
        let Some((showing, name)) = read_line(schedule.len(), &rest[..end]) else {
            return Err(ScheduleFault::Line(schedule.len() as u64 + 1));
        };
        if schedule.push(alloc, showing, name).is_err() {
            return Err(ScheduleFault::OutOfMemory);
        }
        if end == rest.len() {
            return Ok(schedule);
        }
        at += end + 1;
    }
    Ok(schedule)
}

/// A text has one answer: the lines of one schedule, or one first line that no schedule has.
pub fn have_one_schedule()
    ensures { HaveOneSchedule }
{}
