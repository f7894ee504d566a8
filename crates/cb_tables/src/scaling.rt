// The tables of scaling. H.264, 8.5.8 and 8.5.9.
ghost use Rattle.std.specs.Prelude.{◌≡◌, ◌≤◌};
ghost use Rattle.cb_tables.specs.ChromaQp.{chroma_qp_at};
ghost use Rattle.cb_tables.specs.LevelScale.{level_scale_at};

// Rows by QP % 6, and the block's rows of four in each.
static LEVEL_SCALE: [[u8; 16]; 6] = [
    [
        10, 13, 10, 13, 13, 16, 13, 16, 10, 13, 10, 13, 13, 16, 13, 16,
    ],
    [
        11, 14, 11, 14, 14, 18, 14, 18, 11, 14, 11, 14, 14, 18, 14, 18,
    ],
    [
        13, 16, 13, 16, 16, 20, 16, 20, 13, 16, 13, 16, 16, 20, 16, 20,
    ],
    [
        14, 18, 14, 18, 18, 23, 18, 23, 14, 18, 14, 18, 18, 23, 18, 23,
    ],
    [
        16, 20, 16, 20, 20, 25, 20, 25, 16, 20, 16, 20, 20, 25, 20, 25,
    ],
    [
        18, 23, 18, 23, 23, 29, 23, 29, 18, 23, 18, 23, 23, 29, 23, 29,
    ],
];

static CHROMA_QP: [u8; 52] = [
    0, 1, 2, 3, 4, 5, 6, 7, 8, 9, 10, 11, 12, 13, 14, 15, 16, 17, 18, 19, 20, 21, 22, 23, 24, 25,
    26, 27, 28, 29, 29, 30, 31, 32, 32, 33, 34, 34, 35, 35, 36, 36, 37, 37, 37, 38, 38, 38, 39, 39,
    39, 39,
];

/// The level scale at a place of a 4x4 block, which counts its rows of four from 0 to 15, for a remainder
/// QP % 6 of 0 to 5 and flat scaling lists: normAdjust4x4. H.264, 8.5.9.
#[inline]
pub fn level_scale(rem: u32, place: u32) -> u32
    requires rem { rem ≤ 5 }
    requires place { place ≤ 15 }
    ensures { result ≡ level_scale_at rem place }
{
    u32::from(LEVEL_SCALE[rem as usize][place as usize])
}

/// QPc for an index qPI of 0 to 51. H.264, Table 8-15.
#[inline]
pub fn chroma_qp_of(index: u32) -> u32
    requires { index ≤ 51 }
    ensures { result ≡ chroma_qp_at index }
{
    u32::from(CHROMA_QP[index as usize])
}
