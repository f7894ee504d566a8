// coeff_token: the numbers of the levels and of the trailing ones of a block. H.264, 9.2.1.
ghost use Rattle.std.specs.Prelude.{◌≡◌, ℕ, ◌≤◌, IfSome, IfNone};
ghost use Rattle.cb_tables.specs.Codes.{BeginsWith, IsCode};
ghost use Rattle.cb_tables.specs.CoeffToken.{IsOnlyToken, IsToken, token_code};

use crate::codes::{Code, begins, code_of};
use crate::macros::pairs;
use crate::slots::slot_of;

/// The coeff_token whose code begins a window.
#[derive(Clone, Copy, Debug, PartialEq, Eq)]
pub struct FoundToken {
    /// TotalCoeff, the number of levels other than 0.
    pub total: u32,
    /// TrailingOnes.
    pub ones: u32,
    /// The number of bits of the code.
    pub length: u32,
}

#[derive(Clone, Copy)]
struct Levels {
    total: u32,
    ones: u32,
}

// The lists of Table 9-5 for nC 0 and 1, 2 and 3, 4 to 7: rows by TotalCoeff, columns by TrailingOnes,
// each code as length/value, and 0/0 where there is none.
static CODES: [[[(u8, u8); 4]; 17]; 3] = [
    pairs! {
        1/1   0/0   0/0   0/0;
        6/5   2/1   0/0   0/0;
        8/7   6/4   3/1   0/0;
        9/7   8/6   7/5   5/3;
        10/7  9/6   8/5   6/3;
        11/7  10/6  9/5   7/4;
        13/15 11/6  10/5  8/4;
        13/11 13/14 11/5  9/4;
        13/8  13/10 13/13 10/4;
        14/15 14/14 13/9  11/4;
        14/11 14/10 14/13 13/12;
        15/15 15/14 14/9  14/12;
        15/11 15/10 15/13 14/8;
        16/15 15/1  15/9  15/12;
        16/11 16/14 16/13 15/8;
        16/7  16/10 16/9  16/12;
        16/4  16/6  16/5  16/8;
    },
    pairs! {
        2/3   0/0   0/0   0/0;
        6/11  2/2   0/0   0/0;
        6/7   5/7   3/3   0/0;
        7/7   6/10  6/9   4/5;
        8/7   6/6   6/5   4/4;
        8/4   7/6   7/5   5/6;
        9/7   8/6   8/5   6/8;
        11/15 9/6   9/5   6/4;
        11/11 11/14 11/13 7/4;
        12/15 11/10 11/9  9/4;
        12/11 12/14 12/13 11/12;
        12/8  12/10 12/9  11/8;
        13/15 13/14 13/13 12/12;
        13/11 13/10 13/9  13/12;
        13/7  14/11 13/6  13/8;
        14/9  14/8  14/10 13/1;
        14/7  14/6  14/5  14/4;
    },
    pairs! {
        4/15  0/0   0/0   0/0;
        6/15  4/14  0/0   0/0;
        6/11  5/15  4/13  0/0;
        6/8   5/12  5/14  4/12;
        7/15  5/10  5/11  4/11;
        7/11  5/8   5/9   4/10;
        7/9   6/14  6/13  4/9;
        7/8   6/10  6/9   4/8;
        8/15  7/14  7/13  5/13;
        8/11  8/14  7/10  6/12;
        9/15  8/10  8/13  7/12;
        9/11  9/14  8/9   8/12;
        9/8   9/10  9/13  8/8;
        10/13 9/7   9/9   9/12;
        10/9  10/12 10/11 10/10;
        10/5  10/8  10/7  10/6;
        10/1  10/4  10/3  10/2;
    },
];

// The list of Table 9-5 for nC == -1, in the same way.
static CHROMA_DC_CODES: [[(u8, u8); 4]; 5] = pairs! {
    2/1 0/0 0/0 0/0;
    6/7 1/1 0/0 0/0;
    6/4 6/6 3/1 0/0;
    6/3 7/3 7/2 6/5;
    6/2 8/3 8/2 7/0;
};

// The only TotalCoeff/TrailingOnes whose code can begin a window, for the lists above and that of chroma DC:
// rows by the leading zeros up to 15, columns by the three bits behind the first 1.
static CANDIDATES: [[[(u8, u8); 8]; 16]; 4] = [
    pairs! {
        0/0  0/0  0/0  0/0  0/0  0/0  0/0  0/0;
        1/1  1/1  1/1  1/1  1/1  1/1  1/1  1/1;
        2/2  2/2  2/2  2/2  2/2  2/2  2/2  2/2;
        2/1  2/1  1/0  1/0  3/3  3/3  3/3  3/3;
        5/3  5/3  3/2  3/2  4/3  4/3  4/3  4/3;
        6/3  6/3  4/2  4/2  3/1  3/1  2/0  2/0;
        7/3  7/3  5/2  5/2  4/1  4/1  3/0  3/0;
        8/3  8/3  6/2  6/2  5/1  5/1  4/0  4/0;
        9/3  9/3  7/2  7/2  6/1  6/1  5/0  5/0;
        8/0  9/2  8/1  7/0  10/3 8/2  7/1  6/0;
        12/3 11/2 10/1 10/0 11/3 10/2 9/1  9/0;
        14/3 13/2 12/1 12/0 13/3 12/2 11/1 11/0;
        16/3 15/2 15/1 14/0 15/3 14/2 14/1 13/0;
        16/0 16/0 16/2 16/2 16/1 16/1 15/0 15/0;
        13/1 13/1 13/1 13/1 13/1 13/1 13/1 13/1;
        0/0  0/0  0/0  0/0  0/0  0/0  0/0  0/0;
    },
    pairs! {
        1/1  1/1  1/1  1/1  0/0  0/0  0/0  0/0;
        4/3  4/3  3/3  3/3  2/2  2/2  2/2  2/2;
        6/3  3/2  3/1  1/0  5/3  5/3  2/1  2/1;
        7/3  7/3  4/2  4/2  4/1  4/1  2/0  2/0;
        8/3  8/3  5/2  5/2  5/1  5/1  3/0  3/0;
        5/0  5/0  6/2  6/2  6/1  6/1  4/0  4/0;
        9/3  9/3  7/2  7/2  7/1  7/1  6/0  6/0;
        11/3 9/2  9/1  8/0  10/3 8/2  8/1  7/0;
        11/0 11/2 11/1 10/0 12/3 10/2 10/1 9/0;
        14/3 13/2 13/1 13/0 13/3 12/2 12/1 12/0;
        15/1 15/0 15/2 14/1 14/2 14/2 14/0 14/0;
        16/3 16/3 16/2 16/2 16/1 16/1 16/0 16/0;
        15/3 15/3 15/3 15/3 15/3 15/3 15/3 15/3;
        0/0  0/0  0/0  0/0  0/0  0/0  0/0  0/0;
        0/0  0/0  0/0  0/0  0/0  0/0  0/0  0/0;
        0/0  0/0  0/0  0/0  0/0  0/0  0/0  0/0;
    },
    pairs! {
        7/3  6/3  5/3  4/3  3/3  2/2  1/1  0/0;
        5/1  5/2  4/1  4/2  3/1  8/3  3/2  2/1;
        3/0  7/2  7/1  2/0  9/3  6/2  6/1  1/0;
        7/0  6/0  9/2  5/0  10/3 8/2  8/1  4/0;
        12/3 11/2 10/1 9/0  11/3 10/2 9/1  8/0;
        12/0 13/2 12/1 11/0 13/3 12/2 11/1 10/0;
        15/1 14/0 14/3 14/2 14/1 13/0 13/1 13/1;
        16/1 16/1 15/0 15/0 15/3 15/3 15/2 15/2;
        16/3 16/3 16/3 16/3 16/2 16/2 16/2 16/2;
        16/0 16/0 16/0 16/0 16/0 16/0 16/0 16/0;
        0/0  0/0  0/0  0/0  0/0  0/0  0/0  0/0;
        0/0  0/0  0/0  0/0  0/0  0/0  0/0  0/0;
        0/0  0/0  0/0  0/0  0/0  0/0  0/0  0/0;
        0/0  0/0  0/0  0/0  0/0  0/0  0/0  0/0;
        0/0  0/0  0/0  0/0  0/0  0/0  0/0  0/0;
        0/0  0/0  0/0  0/0  0/0  0/0  0/0  0/0;
    },
    pairs! {
        1/1 1/1 1/1 1/1 1/1 1/1 1/1 1/1;
        0/0 0/0 0/0 0/0 0/0 0/0 0/0 0/0;
        2/2 2/2 2/2 2/2 2/2 2/2 2/2 2/2;
        2/0 2/0 3/3 3/3 2/1 2/1 1/0 1/0;
        4/0 4/0 4/0 4/0 3/0 3/0 3/0 3/0;
        3/2 3/2 3/2 3/2 3/1 3/1 3/1 3/1;
        4/2 4/2 4/2 4/2 4/1 4/1 4/1 4/1;
        4/3 4/3 4/3 4/3 4/3 4/3 4/3 4/3;
        4/3 4/3 4/3 4/3 4/3 4/3 4/3 4/3;
        4/3 4/3 4/3 4/3 4/3 4/3 4/3 4/3;
        4/3 4/3 4/3 4/3 4/3 4/3 4/3 4/3;
        4/3 4/3 4/3 4/3 4/3 4/3 4/3 4/3;
        4/3 4/3 4/3 4/3 4/3 4/3 4/3 4/3;
        4/3 4/3 4/3 4/3 4/3 4/3 4/3 4/3;
        4/3 4/3 4/3 4/3 4/3 4/3 4/3 4/3;
        4/3 4/3 4/3 4/3 4/3 4/3 4/3 4/3;
    },
];

/// The code of coeff_token in one of the five lists of Table 9-5: 0 for nC 0 and 1, 1 for 2 and 3, 2 for
/// 4 to 7, 3 for 8 and above, 4 for the DC levels of a chroma block (nC == -1).
#[inline]
pub fn token(table: u32, total: u32, ones: u32) -> Code
    requires { IsToken table total ones }
    ensures entry { result ≡ token_code table total ones }
    ensures code { IsCode result }
{
    match table {
        0..=2 => code_of(CODES[table as usize][total as usize][ones as usize]),
        3 => six_bits(total, ones),
        _ => code_of(CHROMA_DC_CODES[total as usize][ones as usize]),
    }
}

// The code for nC of 8 and above.
fn six_bits(total: u32, ones: u32) -> Code
    requires { IsToken 3 total ones }
    ensures { result ≡ token_code 3 total ones }
{
    let value = if total == 0 {
        3
    } else {
        (total - 1) * 4 + ones
    };
    Code { length: 6, value }
}

/// Finds the coeff_token whose code begins the next 32 bits of a stream, of which the first is the
/// highest and those past the end are zeros. The lists are numbered as for [`token`].
#[inline]
pub fn find_token(table: u32, window: u32) -> Option<FoundToken>
    requires { table ≤ 4 }
    ensures token { IfSome result (λ found. IsToken table found.total found.ones) }
    ensures begins { IfSome result (λ found. BeginsWith window (token_code table found.total found.ones)) }
    ensures length { IfSome result (λ found. found.length ≡ (token_code table found.total found.ones).length) }
    ensures none { IfNone result ((total ones : ℕ) → IsToken table total ones → ¬ BeginsWith window (token_code table total ones)) }
{
    let Levels { total, ones } = candidate(table, window);
    let code = token(table, total, ones);
    if begins(window, code) {
        Some(FoundToken {
            total,
            ones,
            length: code.length,
        })
    } else {
        None
    }
}

// The only coeff_token of the list whose code can begin the window.
#[inline]
fn candidate(table: u32, window: u32) -> Levels
    requires { table ≤ 4 }
    ensures token { IsToken table result.total result.ones }
    ensures only { IsOnlyToken table window result.total result.ones }
{
    if table == 3 {
        six_bits_candidate(window)
    } else {
        listed_candidate(table, window)
    }
}

#[inline]
fn six_bits_candidate(window: u32) -> Levels
    ensures token { IsToken 3 result.total result.ones }
    ensures only { IsOnlyToken 3 window result.total result.ones }
{
    let value = window >> 26;
    if value == 3 {
        return Levels { total: 0, ones: 0 };
    }
    let total = value / 4 + 1;
    Levels {
        total,
        ones: (value % 4).min(total),
    }
}

#[inline]
fn listed_candidate(table: u32, window: u32) -> Levels
    requires list { table ≤ 4 }
    requires listed { table ≡ 3 → ⊥ }
    ensures token { IsToken table result.total result.ones }
    ensures only { IsOnlyToken table window result.total result.ones }
{
    let list = table.min(3) as usize;
    let slot = slot_of(window, 15, 3);
    let (total, ones) = CANDIDATES[list][slot.leading as usize][slot.next as usize];
    Levels {
        total: u32::from(total),
        ones: u32::from(ones),
    }
}
