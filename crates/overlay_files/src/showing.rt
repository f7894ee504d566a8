// When and where a bitmap is shown.
ghost use Rattle.std.specs.Prelude.{◌≡◌, ◌≢◌, MatchOption};
ghost use Rattle.overlay_files.specs.declared.showing.Showing as declared;
ghost use Rattle.overlay_files.specs.Cues.{IsShowing};
ghost use Rattle.overlay_files.specs.Schedules.{numbers_of};

/// The greatest place of a bitmap's first pixel, in either direction.
pub const LAST_PLACE: u64 = 4095;

// The number of streams.
const STREAMS: u64 = 16;

/// A bitmap is shown over a stream from one time on, in nanoseconds, up to another one, which isn't
/// included. Its first pixel lies in column `x` of row `y`.
#[derive(Clone, Copy, Debug, PartialEq, Eq)]
pub struct Showing {
    pub from: u64,
    pub to: u64,
    pub stream: u32,
    pub x: u32,
    pub y: u32,
}

// The showing of these numbers: its times, its stream, its column and its row.
pub(crate) fn showing_of(numbers: [u64; 5]) -> Option<Showing>
    ensures { MatchOption result ((s : declared.Showing) → IsShowing s → numbers ≢ numbers_of s) (λ s. IsShowing s × (numbers ≡ numbers_of s)) }
{
    let [from, to, stream, x, y] = numbers;
    if to <= from || to >= 1 << 63 || stream >= STREAMS || x > LAST_PLACE || y > LAST_PLACE {
        return None;
    }
    Some(Showing {
        from,
        to,
        stream: stream as u32,
        x: x as u32,
        y: y as u32,
    })
}
