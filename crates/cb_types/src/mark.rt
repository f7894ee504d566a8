// What the deblocking filter knows of a macroblock.

use super::macroblock::Vector;

/// What the deblocking filter needs to know of a macroblock (H.264, 8.7).
///
/// `slice` is the address of its slice's first macroblock, `qp` its luma QP, `idc`
/// disable_deblocking_filter_idc, `alpha` and `beta` are FilterOffsetA and FilterOffsetB. By 4x4 luma
/// block, in the order of their numbers: `coded` says that it has levels other than 0, `pictures` has the
/// places in the picture info of the references that are predicted from, and `vectors` the motion vectors.
#[derive(Clone, Copy, Debug, PartialEq, Eq)]
pub struct MbMark {
    pub slice: u32,
    pub intra: bool,
    pub pcm: bool,
    pub qp: u32,
    pub idc: u32,
    pub alpha: i32,
    pub beta: i32,
    pub coded: [bool; 16],
    pub pictures: [u8; 16],
    pub vectors: [Vector; 16],
}
