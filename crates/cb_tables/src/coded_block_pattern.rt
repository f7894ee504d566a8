// coded_block_pattern, whose codeNum me(v) maps by the kind of macroblock. H.264, 9.1.2.
ghost use Rattle.std.specs.Prelude.{◌≡◌, ◌≤◌};
ghost use Rattle.cb_tables.specs.CodedBlockPattern.{pattern_at, pattern_code_at};

static INTRA: [u8; 48] = [
    47, 31, 15, 0, 23, 27, 29, 30, 7, 11, 13, 14, 39, 43, 45, 46, 16, 3, 5, 10, 12, 19, 21, 26, 28,
    35, 37, 42, 44, 1, 2, 4, 8, 17, 18, 20, 24, 6, 9, 22, 25, 32, 33, 34, 36, 40, 38, 41,
];

static INTER: [u8; 48] = [
    0, 16, 1, 2, 4, 8, 32, 3, 5, 10, 12, 15, 47, 7, 11, 13, 14, 6, 9, 31, 35, 37, 42, 44, 33, 34,
    36, 40, 39, 43, 45, 46, 17, 18, 20, 24, 19, 21, 26, 28, 23, 27, 29, 30, 22, 25, 38, 41,
];

// The places of the patterns 0 to 47 in the tables above.
static INTRA_CODES: [u8; 48] = [
    3, 29, 30, 17, 31, 18, 37, 8, 32, 38, 19, 9, 20, 10, 11, 2, 16, 33, 34, 21, 35, 22, 39, 4, 36,
    40, 23, 5, 24, 6, 7, 1, 41, 42, 43, 25, 44, 26, 46, 12, 45, 47, 27, 13, 28, 14, 15, 0,
];

static INTER_CODES: [u8; 48] = [
    0, 2, 3, 7, 4, 8, 17, 13, 5, 18, 9, 14, 10, 15, 16, 11, 1, 32, 33, 36, 34, 37, 44, 40, 35, 45,
    38, 41, 39, 42, 43, 19, 6, 24, 25, 20, 26, 21, 46, 28, 27, 47, 22, 29, 23, 30, 31, 12,
];

/// The coded block pattern of a codeNum 0 to 47: its four low bits tell which quarters of the luma are
/// coded, and the rest is 0 to 2 for chroma. `intra` is for Intra_4x4 macroblocks. H.264, Table 9-4 (a).
#[inline]
pub fn pattern(code: u32, intra: bool) -> u32
    requires { code ≤ 47 }
    ensures { result ≡ pattern_at code intra }
{
    if intra {
        u32::from(INTRA[code as usize])
    } else {
        u32::from(INTER[code as usize])
    }
}

/// The codeNum of a coded block pattern 0 to 47. H.264, Table 9-4 (a).
#[inline]
pub fn pattern_code(pattern: u32, intra: bool) -> u32
    requires { pattern ≤ 47 }
    ensures { result ≡ pattern_code_at pattern intra }
{
    if intra {
        u32::from(INTRA_CODES[pattern as usize])
    } else {
        u32::from(INTER_CODES[pattern as usize])
    }
}
