// The tables of the deblocking filter. H.264, 8.7.2.2 and 8.7.2.3.
ghost use Rattle.std.specs.Prelude.{◌≡◌, ◌≤◌};
ghost use Rattle.cb_tables.specs.ClippingBounds.{tc0_at};
ghost use Rattle.cb_tables.specs.FilterThresholds.{alpha_at, beta_at};

static ALPHA: [u8; 52] = [
    0, 0, 0, 0, 0, 0, 0, 0, 0, 0, 0, 0, 0, 0, 0, 0, 4, 4, 5, 6, 7, 8, 9, 10, 12, 13, 15, 17, 20,
    22, 25, 28, 32, 36, 40, 45, 50, 56, 63, 71, 80, 90, 101, 113, 127, 144, 162, 182, 203, 226,
    255, 255,
];

static BETA: [u8; 52] = [
    0, 0, 0, 0, 0, 0, 0, 0, 0, 0, 0, 0, 0, 0, 0, 0, 2, 2, 2, 3, 3, 3, 3, 4, 4, 4, 6, 6, 7, 7, 8, 8,
    9, 9, 10, 10, 11, 11, 12, 12, 13, 13, 14, 14, 15, 15, 16, 16, 17, 17, 18, 18,
];

// Rows by boundary strength 1, 2, 3.
static TC0: [[u8; 52]; 3] = [
    [
        0, 0, 0, 0, 0, 0, 0, 0, 0, 0, 0, 0, 0, 0, 0, 0, 0, 0, 0, 0, 0, 0, 0, 1, 1, 1, 1, 1, 1, 1,
        1, 1, 1, 2, 2, 2, 2, 3, 3, 3, 4, 4, 4, 5, 6, 6, 7, 8, 9, 10, 11, 13,
    ],
    [
        0, 0, 0, 0, 0, 0, 0, 0, 0, 0, 0, 0, 0, 0, 0, 0, 0, 0, 0, 0, 0, 1, 1, 1, 1, 1, 1, 1, 1, 1,
        1, 2, 2, 2, 2, 3, 3, 3, 4, 4, 5, 5, 6, 7, 8, 8, 10, 11, 12, 13, 15, 17,
    ],
    [
        0, 0, 0, 0, 0, 0, 0, 0, 0, 0, 0, 0, 0, 0, 0, 0, 0, 1, 1, 1, 1, 1, 1, 1, 1, 1, 1, 2, 2, 2,
        2, 3, 3, 3, 4, 4, 4, 5, 6, 6, 7, 8, 9, 10, 11, 13, 14, 16, 18, 20, 23, 25,
    ],
];

/// The threshold α' for indexA 0 to 51. H.264, Table 8-16.
#[inline]
pub fn alpha(index: u32) -> u32
    requires { index ≤ 51 }
    ensures { result ≡ alpha_at index }
{
    u32::from(ALPHA[index as usize])
}

/// The threshold β' for indexB 0 to 51. H.264, Table 8-16.
#[inline]
pub fn beta(index: u32) -> u32
    requires { index ≤ 51 }
    ensures { result ≡ beta_at index }
{
    u32::from(BETA[index as usize])
}

/// The bound tC0' for indexA 0 to 51 and a boundary strength of 1 to 3. H.264, Table 8-17.
#[inline]
pub fn tc0(index: u32, strength: u32) -> u32
    requires index { index ≤ 51 }
    requires some { 1 ≤ strength }
    requires most { strength ≤ 3 }
    ensures { result ≡ tc0_at index strength }
{
    u32::from(TC0[strength as usize - 1][index as usize])
}
