// run_before: how many levels of 0 stand right before a level. H.264, 9.2.3.
ghost use Rattle.std.specs.Prelude.{◌≡◌, ℕ, ◌<◌, ◌≤◌, IfSome, IfNone};
ghost use Rattle.cb_tables.specs.Codes.{BeginsWith, IsCode};
ghost use Rattle.cb_tables.specs.RunBefore.{IsRun, run_code};

use crate::codes::{Code, Found, begins, code_of};
use crate::macros::pairs;
use crate::slots::slot_of;

// Table 9-10: rows by zerosLeft 1 to 6 and above, columns by run_before, each code as length/value, and 0/0
// where there is none.
static RUNS: [[(u8, u8); 15]; 7] = pairs! {
    1/1  1/0  0/0  0/0  0/0  0/0  0/0  0/0  0/0  0/0  0/0  0/0  0/0  0/0  0/0;
    1/1  2/1  2/0  0/0  0/0  0/0  0/0  0/0  0/0  0/0  0/0  0/0  0/0  0/0  0/0;
    2/3  2/2  2/1  2/0  0/0  0/0  0/0  0/0  0/0  0/0  0/0  0/0  0/0  0/0  0/0;
    2/3  2/2  2/1  3/1  3/0  0/0  0/0  0/0  0/0  0/0  0/0  0/0  0/0  0/0  0/0;
    2/3  2/2  3/3  3/2  3/1  3/0  0/0  0/0  0/0  0/0  0/0  0/0  0/0  0/0  0/0;
    2/3  3/0  3/1  3/3  3/2  3/5  3/4  0/0  0/0  0/0  0/0  0/0  0/0  0/0  0/0;
    3/7  3/6  3/5  3/4  3/3  3/2  3/1  4/1  5/1  6/1  7/1  8/1  9/1  10/1 11/1;
};

// The only run_before whose code can begin a window, by zerosLeft 1 to 6: rows by the leading zeros up to 3,
// columns by the two bits behind the first 1.
static CANDIDATES: [[[u8; 4]; 4]; 6] = [
    [[0, 0, 0, 0], [1, 1, 1, 1], [1, 1, 1, 1], [1, 1, 1, 1]],
    [[0, 0, 0, 0], [1, 1, 1, 1], [2, 2, 2, 2], [2, 2, 2, 2]],
    [[1, 1, 0, 0], [2, 2, 2, 2], [3, 3, 3, 3], [3, 3, 3, 3]],
    [[1, 1, 0, 0], [2, 2, 2, 2], [3, 3, 3, 3], [4, 4, 4, 4]],
    [[1, 1, 0, 0], [3, 3, 2, 2], [4, 4, 4, 4], [5, 5, 5, 5]],
    [[6, 5, 0, 0], [4, 4, 3, 3], [2, 2, 2, 2], [1, 1, 1, 1]],
];

// The same for zerosLeft above 6, with leading zeros up to 11.
static LONG_CANDIDATES: [[u8; 4]; 12] = [
    [3, 2, 1, 0],
    [5, 5, 4, 4],
    [6, 6, 6, 6],
    [7, 7, 7, 7],
    [8, 8, 8, 8],
    [9, 9, 9, 9],
    [10, 10, 10, 10],
    [11, 11, 11, 11],
    [12, 12, 12, 12],
    [13, 13, 13, 13],
    [14, 14, 14, 14],
    [0, 0, 0, 0],
];

/// The code of run_before where `left` zeros are left, at least 1. All numbers of zeros above 6 have the
/// same list, with runs up to 14. H.264, Table 9-10.
#[inline]
pub fn run(left: u32, run: u32) -> Code
    requires { IsRun left run }
    ensures entry { result ≡ run_code left run }
    ensures code { IsCode result }
{
    code_of(RUNS[left.min(7) as usize - 1][run as usize])
}

/// Finds the run_before whose code in the list of [`run`] begins the next 32 bits of a stream, of which the
/// first is the highest and those past the end are zeros. Where more than 6 zeros are left, the run that
/// is found can be longer than they are.
#[inline]
pub fn find_run(left: u32, window: u32) -> Option<Found>
    requires { 1 ≤ left }
    ensures run { IfSome result (λ found. IsRun left found.value) }
    ensures begins { IfSome result (λ found. BeginsWith window (run_code left found.value)) }
    ensures length { IfSome result (λ found. found.length ≡ (run_code left found.value).length) }
    ensures none { IfNone result ((run : ℕ) → IsRun left run → ¬ BeginsWith window (run_code left run)) }
{
    let value = candidate(left, window);
    let code = run(left, value);
    if begins(window, code) {
        Some(Found {
            value,
            length: code.length,
        })
    } else {
        None
    }
}

// The only run_before of the list whose code can begin the window.
#[inline]
fn candidate(left: u32, window: u32) -> u32
    requires { 1 ≤ left }
    ensures run { IsRun left result }
    ensures only { (run : ℕ) → IsRun left run → BeginsWith window (run_code left run) → run ≡ result }
{
    if left > 6 {
        long_candidate(left, window)
    } else {
        short_candidate(left, window)
    }
}

#[inline]
fn short_candidate(left: u32, window: u32) -> u32
    requires some { 1 ≤ left }
    requires few { left ≤ 6 }
    ensures run { IsRun left result }
    ensures only { (run : ℕ) → IsRun left run → BeginsWith window (run_code left run) → run ≡ result }
{
    let slot = slot_of(window, 3, 2);
    u32::from(CANDIDATES[left as usize - 1][slot.leading as usize][slot.next as usize])
}

#[inline]
fn long_candidate(left: u32, window: u32) -> u32
    requires { 6 < left }
    ensures run { IsRun left result }
    ensures only { (run : ℕ) → IsRun left run → BeginsWith window (run_code left run) → run ≡ result }
{
    let slot = slot_of(window, 11, 2);
    u32::from(LONG_CANDIDATES[slot.leading as usize][slot.next as usize])
}
