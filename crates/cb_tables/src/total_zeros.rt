// total_zeros: how many levels of 0 stand before the last level other than 0. H.264, 9.2.3.
ghost use Rattle.std.specs.Prelude.{◌≡◌, ℕ, ◌≤◌, IfSome, IfNone};
ghost use Rattle.cb_tables.specs.Codes.{BeginsWith, IsCode};
ghost use Rattle.cb_tables.specs.TotalZeros.{IsDcZeros, IsTotalZeros, dc_zeros_code, total_zeros_code};

use crate::codes::{Code, Found, begins, code_of};
use crate::macros::pairs;
use crate::slots::slot_of;

// Tables 9-7 and 9-8: rows by TotalCoeff from 1, columns by total_zeros, each code as length/value, and 0/0
// where there is none.
static TOTAL_ZEROS: [[(u8, u8); 16]; 15] = pairs! {
    1/1 3/3 3/2 4/3 4/2 5/3 5/2 6/3 6/2 7/3 7/2 8/3 8/2 9/3 9/2 9/1;
    3/7 3/6 3/5 3/4 3/3 4/5 4/4 4/3 4/2 5/3 5/2 6/3 6/2 6/1 6/0 0/0;
    4/5 3/7 3/6 3/5 4/4 4/3 3/4 3/3 4/2 5/3 5/2 6/1 5/1 6/0 0/0 0/0;
    5/3 3/7 4/5 4/4 3/6 3/5 3/4 4/3 3/3 4/2 5/2 5/1 5/0 0/0 0/0 0/0;
    4/5 4/4 4/3 3/7 3/6 3/5 3/4 3/3 4/2 5/1 4/1 5/0 0/0 0/0 0/0 0/0;
    6/1 5/1 3/7 3/6 3/5 3/4 3/3 3/2 4/1 3/1 6/0 0/0 0/0 0/0 0/0 0/0;
    6/1 5/1 3/5 3/4 3/3 2/3 3/2 4/1 3/1 6/0 0/0 0/0 0/0 0/0 0/0 0/0;
    6/1 4/1 5/1 3/3 2/3 2/2 3/2 3/1 6/0 0/0 0/0 0/0 0/0 0/0 0/0 0/0;
    6/1 6/0 4/1 2/3 2/2 3/1 2/1 5/1 0/0 0/0 0/0 0/0 0/0 0/0 0/0 0/0;
    5/1 5/0 3/1 2/3 2/2 2/1 4/1 0/0 0/0 0/0 0/0 0/0 0/0 0/0 0/0 0/0;
    4/0 4/1 3/1 3/2 1/1 3/3 0/0 0/0 0/0 0/0 0/0 0/0 0/0 0/0 0/0 0/0;
    4/0 4/1 2/1 1/1 3/1 0/0 0/0 0/0 0/0 0/0 0/0 0/0 0/0 0/0 0/0 0/0;
    3/0 3/1 1/1 2/1 0/0 0/0 0/0 0/0 0/0 0/0 0/0 0/0 0/0 0/0 0/0 0/0;
    2/0 2/1 1/1 0/0 0/0 0/0 0/0 0/0 0/0 0/0 0/0 0/0 0/0 0/0 0/0 0/0;
    1/0 1/1 0/0 0/0 0/0 0/0 0/0 0/0 0/0 0/0 0/0 0/0 0/0 0/0 0/0 0/0;
};

// Table 9-9 (a), in the same way.
static DC_ZEROS: [[(u8, u8); 4]; 3] = pairs! {
    1/1 2/1 3/1 3/0;
    1/1 2/1 2/0 0/0;
    1/1 1/0 0/0 0/0;
};

// The only total_zeros whose code can begin a window, by TotalCoeff from 1: rows by the leading zeros up
// to 8, columns by the two bits behind the first 1.
static CANDIDATES: [[[u8; 4]; 9]; 15] = [
    [
        [0, 0, 0, 0],
        [2, 2, 1, 1],
        [4, 4, 3, 3],
        [6, 6, 5, 5],
        [8, 8, 7, 7],
        [10, 10, 9, 9],
        [12, 12, 11, 11],
        [14, 14, 13, 13],
        [15, 15, 15, 15],
    ],
    [
        [3, 2, 1, 0],
        [6, 5, 4, 4],
        [8, 8, 7, 7],
        [10, 10, 9, 9],
        [12, 12, 11, 11],
        [13, 13, 13, 13],
        [14, 14, 14, 14],
        [14, 14, 14, 14],
        [14, 14, 14, 14],
    ],
    [
        [6, 3, 2, 1],
        [4, 0, 7, 7],
        [8, 8, 5, 5],
        [10, 10, 9, 9],
        [12, 12, 12, 12],
        [11, 11, 11, 11],
        [13, 13, 13, 13],
        [13, 13, 13, 13],
        [13, 13, 13, 13],
    ],
    [
        [6, 5, 4, 1],
        [3, 2, 8, 8],
        [9, 9, 7, 7],
        [10, 10, 0, 0],
        [11, 11, 11, 11],
        [12, 12, 12, 12],
        [12, 12, 12, 12],
        [12, 12, 12, 12],
        [12, 12, 12, 12],
    ],
    [
        [6, 5, 4, 3],
        [1, 0, 7, 7],
        [8, 8, 2, 2],
        [10, 10, 10, 10],
        [9, 9, 9, 9],
        [11, 11, 11, 11],
        [11, 11, 11, 11],
        [11, 11, 11, 11],
        [11, 11, 11, 11],
    ],
    [
        [5, 4, 3, 2],
        [7, 7, 6, 6],
        [9, 9, 9, 9],
        [8, 8, 8, 8],
        [1, 1, 1, 1],
        [0, 0, 0, 0],
        [10, 10, 10, 10],
        [10, 10, 10, 10],
        [10, 10, 10, 10],
    ],
    [
        [3, 2, 5, 5],
        [6, 6, 4, 4],
        [8, 8, 8, 8],
        [7, 7, 7, 7],
        [1, 1, 1, 1],
        [0, 0, 0, 0],
        [9, 9, 9, 9],
        [9, 9, 9, 9],
        [9, 9, 9, 9],
    ],
    [
        [5, 5, 4, 4],
        [6, 6, 3, 3],
        [7, 7, 7, 7],
        [1, 1, 1, 1],
        [2, 2, 2, 2],
        [0, 0, 0, 0],
        [8, 8, 8, 8],
        [8, 8, 8, 8],
        [8, 8, 8, 8],
    ],
    [
        [4, 4, 3, 3],
        [6, 6, 6, 6],
        [5, 5, 5, 5],
        [2, 2, 2, 2],
        [7, 7, 7, 7],
        [0, 0, 0, 0],
        [1, 1, 1, 1],
        [1, 1, 1, 1],
        [1, 1, 1, 1],
    ],
    [
        [4, 4, 3, 3],
        [5, 5, 5, 5],
        [2, 2, 2, 2],
        [6, 6, 6, 6],
        [0, 0, 0, 0],
        [1, 1, 1, 1],
        [1, 1, 1, 1],
        [1, 1, 1, 1],
        [1, 1, 1, 1],
    ],
    [
        [4, 4, 4, 4],
        [3, 3, 5, 5],
        [2, 2, 2, 2],
        [1, 1, 1, 1],
        [0, 0, 0, 0],
        [0, 0, 0, 0],
        [0, 0, 0, 0],
        [0, 0, 0, 0],
        [0, 0, 0, 0],
    ],
    [
        [3, 3, 3, 3],
        [2, 2, 2, 2],
        [4, 4, 4, 4],
        [1, 1, 1, 1],
        [0, 0, 0, 0],
        [0, 0, 0, 0],
        [0, 0, 0, 0],
        [0, 0, 0, 0],
        [0, 0, 0, 0],
    ],
    [
        [2, 2, 2, 2],
        [3, 3, 3, 3],
        [1, 1, 1, 1],
        [0, 0, 0, 0],
        [0, 0, 0, 0],
        [0, 0, 0, 0],
        [0, 0, 0, 0],
        [0, 0, 0, 0],
        [0, 0, 0, 0],
    ],
    [
        [2, 2, 2, 2],
        [1, 1, 1, 1],
        [0, 0, 0, 0],
        [0, 0, 0, 0],
        [0, 0, 0, 0],
        [0, 0, 0, 0],
        [0, 0, 0, 0],
        [0, 0, 0, 0],
        [0, 0, 0, 0],
    ],
    [
        [1, 1, 1, 1],
        [0, 0, 0, 0],
        [0, 0, 0, 0],
        [0, 0, 0, 0],
        [0, 0, 0, 0],
        [0, 0, 0, 0],
        [0, 0, 0, 0],
        [0, 0, 0, 0],
        [0, 0, 0, 0],
    ],
];

// The same for the DC levels of a chroma block, with leading zeros up to 3.
static DC_CANDIDATES: [[[u8; 4]; 4]; 3] = [
    [[0, 0, 0, 0], [1, 1, 1, 1], [2, 2, 2, 2], [3, 3, 3, 3]],
    [[0, 0, 0, 0], [1, 1, 1, 1], [2, 2, 2, 2], [2, 2, 2, 2]],
    [[0, 0, 0, 0], [1, 1, 1, 1], [1, 1, 1, 1], [1, 1, 1, 1]],
];

/// The code of total_zeros in a block of 4x4 samples with `total` levels other than 0, 1 to 15. H.264,
/// Tables 9-7 and 9-8.
#[inline]
pub fn zeros(total: u32, zeros: u32) -> Code
    requires { IsTotalZeros total zeros }
    ensures entry { result ≡ total_zeros_code total zeros }
    ensures code { IsCode result }
{
    code_of(TOTAL_ZEROS[total as usize - 1][zeros as usize])
}

/// The code of total_zeros for the DC levels of a chroma block, of which `total` aren't 0, 1 to 3. H.264,
/// Table 9-9 (a).
#[inline]
pub fn dc_zeros(total: u32, zeros: u32) -> Code
    requires { IsDcZeros total zeros }
    ensures entry { result ≡ dc_zeros_code total zeros }
    ensures code { IsCode result }
{
    code_of(DC_ZEROS[total as usize - 1][zeros as usize])
}

/// Finds the total_zeros whose code in the list of [`zeros`] begins the next 32 bits of a stream, of which
/// the first is the highest and those past the end are zeros.
#[inline]
pub fn find_zeros(total: u32, window: u32) -> Option<Found>
    requires some { 1 ≤ total }
    requires most { total ≤ 15 }
    ensures zeros { IfSome result (λ found. IsTotalZeros total found.value) }
    ensures begins { IfSome result (λ found. BeginsWith window (total_zeros_code total found.value)) }
    ensures length { IfSome result (λ found. found.length ≡ (total_zeros_code total found.value).length) }
    ensures none { IfNone result ((zeros : ℕ) → IsTotalZeros total zeros → ¬ BeginsWith window (total_zeros_code total zeros)) }
{
    let value = candidate(total, window);
    let code = zeros(total, value);
    if begins(window, code) {
        Some(Found {
            value,
            length: code.length,
        })
    } else {
        None
    }
}

/// Finds the total_zeros whose code in the list of [`dc_zeros`] begins the next 32 bits of a stream, as
/// [`find_zeros`] does.
#[inline]
pub fn find_dc_zeros(total: u32, window: u32) -> Option<Found>
    requires some { 1 ≤ total }
    requires most { total ≤ 3 }
    ensures zeros { IfSome result (λ found. IsDcZeros total found.value) }
    ensures begins { IfSome result (λ found. BeginsWith window (dc_zeros_code total found.value)) }
    ensures length { IfSome result (λ found. found.length ≡ (dc_zeros_code total found.value).length) }
    ensures none { IfNone result ((zeros : ℕ) → IsDcZeros total zeros → ¬ BeginsWith window (dc_zeros_code total zeros)) }
{
    let value = dc_candidate(total, window);
    let code = dc_zeros(total, value);
    if begins(window, code) {
        Some(Found {
            value,
            length: code.length,
        })
    } else {
        None
    }
}

// The only total_zeros of the list whose code can begin the window.
#[inline]
fn candidate(total: u32, window: u32) -> u32
    requires some { 1 ≤ total }
    requires most { total ≤ 15 }
    ensures zeros { IsTotalZeros total result }
    ensures only { (zeros : ℕ) → IsTotalZeros total zeros → BeginsWith window (total_zeros_code total zeros) → zeros ≡ result }
{
    let slot = slot_of(window, 8, 2);
    u32::from(CANDIDATES[total as usize - 1][slot.leading as usize][slot.next as usize])
}

#[inline]
fn dc_candidate(total: u32, window: u32) -> u32
    requires some { 1 ≤ total }
    requires most { total ≤ 3 }
    ensures zeros { IsDcZeros total result }
    ensures only { (zeros : ℕ) → IsDcZeros total zeros → BeginsWith window (dc_zeros_code total zeros) → zeros ≡ result }
{
    let slot = slot_of(window, 3, 2);
    u32::from(DC_CANDIDATES[total as usize - 1][slot.leading as usize][slot.next as usize])
}
