// The syntax elements of a macroblock.

/// A motion vector or a difference of two, in quarters of a luma sample.
#[derive(Clone, Copy, Debug, PartialEq, Eq)]
pub struct Vector {
    pub x: i32,
    pub y: i32,
}

/// What is spelled of a macroblock partition (H.264, 7.3.5.1): ref_idx_l0 and mvd_l0.
#[derive(Clone, Copy, Debug, PartialEq, Eq)]
pub struct Part {
    pub reference: u32,
    pub delta: Vector,
}

/// What is spelled of a sub-macroblock (H.264, 7.3.5.2): ref_idx_l0, sub_mb_type (0: 8x8, 1: 8x4,
/// 2: 4x8, 3: 4x4) and mvd_l0 of each of its partitions. Vectors that the type doesn't have are 0.
#[derive(Clone, Copy, Debug, PartialEq, Eq)]
pub struct Sub {
    pub reference: u32,
    pub kind: u32,
    pub deltas: [Vector; 4],
}

/// What is spelled of the prediction mode of an Intra4x4 block (H.264, 7.3.5.1): that it is the
/// predicted one, or rem_intra4x4_pred_mode.
#[derive(Clone, Copy, Debug, PartialEq, Eq)]
pub enum Mode {
    Predicted,
    Remaining(u32),
}

/// The kinds of macroblocks (H.264, Tables 7-11 and 7-13) with what is spelled of their prediction.
///
/// `Pcm` has the samples of Y, Cb and Cr by rows. `chroma` is intra_chroma_pred_mode. The modes and the
/// parts are in the order of the standard's numbers. The last number of an inter kind, and `pattern`, is
/// the coded block pattern: CodedBlockPatternLuma plus 16 times CodedBlockPatternChroma. `Whole`, `Wide`
/// and `Tall` are P_L0_16x16, P_L0_L0_16x8 and P_L0_L0_8x16, `Four` and `FourFirst` are P_8x8 and
/// P_8x8ref0.
#[derive(Clone, Copy, Debug, PartialEq, Eq)]
pub enum MbKind {
    Skip,
    Pcm([u8; 384]),
    Intra4 {
        modes: [Mode; 16],
        chroma: u32,
        pattern: u32,
    },
    Intra16 {
        mode: u32,
        chroma: u32,
        pattern: u32,
    },
    Whole(Part, u32),
    Wide([Part; 2], u32),
    Tall([Part; 2], u32),
    Four([Sub; 4], u32),
    FourFirst([Sub; 4], u32),
}

/// The transform coefficient levels of a 4x4 block, in the order of the zig-zag scan.
#[derive(Clone, Copy, Debug, PartialEq, Eq)]
pub struct Levels(pub [i32; 16]);

/// The DC levels of the four blocks of Cb or Cr.
#[derive(Clone, Copy, Debug, PartialEq, Eq)]
pub struct DcLevels(pub [i32; 4]);

/// The levels of the four blocks of Cb or Cr, without those of DC.
#[derive(Clone, Copy, Debug, PartialEq, Eq)]
pub struct ChromaLevels(pub [Levels; 4]);

/// A macroblock (H.264, 7.3.5): its kind, mb_qp_delta and its transform coefficient levels.
///
/// Levels are in the order of the zig-zag scan, and those of a block that isn't coded are 0. `luma_dc` is
/// the DC block of Intra16x16; `luma` and `chroma` are the 4x4 blocks in the order of their numbers,
/// `chroma_dc` and `chroma` those of Cb, then of Cr. A block of AC levels alone has them at the places 0
/// to 14, and 0 at place 15.
#[derive(Clone, Copy, Debug, PartialEq, Eq)]
pub struct Macroblock {
    pub kind: MbKind,
    pub qp_delta: i32,
    pub luma_dc: [i32; 16],
    pub luma: [Levels; 16],
    pub chroma_dc: [DcLevels; 2],
    pub chroma: [ChromaLevels; 2],
}

impl Macroblock {
    /// A skipped macroblock, P_Skip.
    pub const SKIP: Macroblock = Macroblock {
        kind: MbKind::Skip,
        qp_delta: 0,
        luma_dc: [0; 16],
        luma: [Levels([0; 16]); 16],
        chroma_dc: [DcLevels([0; 4]); 2],
        chroma: [ChromaLevels([Levels([0; 16]); 4]); 2],
    };
}
