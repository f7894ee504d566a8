// Boundary filtering strength. H.264, 8.7.2.1.
ghost use Rattle.std.specs.Prelude.{◌≡◌, IsTrue, ◌-ℤ◌, unsigned_abs, nat_le, ◌+◌, ◌==◌, ◌<◌, ◌≤◌, ◌%◌, [], ◌∷◌, length, if◌then◌else◌};
ghost use Rattle.cb_types.specs.Blocks.{block_at};
ghost use Rattle.int_transform.specs.Bounds.{IsWithin};
ghost use Rattle.deblock.specs.Edges.{block_along, is_edge_filtered, strength_between};
ghost use Rattle.deblock.specs.Marks.{IsMark, IsVectorWithinLimits};
ghost use Rattle.deblock.specs.Strength.{are_vectors_apart, is_moved_apart, strength};

use cb_types::{MbMark, Vector};

// Whether edges between these macroblocks are filtered, of which the second holds q0.
#[inline]
pub(crate) fn is_edge_filtered(p: &MbMark, q: &MbMark) -> bool
    ensures { result ≡ is_edge_filtered p.now q.now }
{
    q.idc != 1 && (q.idc != 2 || p.slice == q.slice)
}

// Whether two components of vectors differ by four quarters or more.
#[inline(always)]
fn is_far(a: i32, b: i32) -> bool
    requires a { IsWithin 8192 a }
    requires b { IsWithin 8192 b }
    ensures { result ≡ nat_le 4 (unsigned_abs (a -ℤ b)) }
{
    (a - b).unsigned_abs() >= 4
}

// Whether a component differs by four quarters or more.
#[inline(always)]
fn are_vectors_apart(a: Vector, b: Vector) -> bool
    requires a { IsVectorWithinLimits a }
    requires b { IsVectorWithinLimits b }
    ensures { result ≡ are_vectors_apart a b }
{
    is_far(a.x, b.x) || is_far(a.y, b.y)
}

// Whether two blocks are predicted from different pictures or places.
#[inline(always)]
fn is_moved_apart(p: &MbMark, p_block: usize, q: &MbMark, q_block: usize) -> bool
    requires p { IsMark p.now }
    requires q { IsMark q.now }
    requires p_block { p_block < 16 }
    requires q_block { q_block < 16 }
    ensures { result ≡ is_moved_apart p.now p_block q.now q_block }
{
    p.pictures[p_block] != q.pictures[q_block]
        || are_vectors_apart(p.vectors[p_block], q.vectors[q_block])
}

// The strength between two blocks.
#[inline(always)]
#[tactic(auto, unfolding(crate::specs::Strength::strength))]
fn strength(is_macroblock_edge: bool, p: &MbMark, p_block: usize, q: &MbMark, q_block: usize) -> u8
    requires p { IsMark p.now }
    requires q { IsMark q.now }
    requires p_block { p_block < 16 }
    requires q_block { q_block < 16 }
    ensures value { result ≡ strength is_macroblock_edge p.now p_block q.now q_block }
    ensures most { result ≤ 4 }
{
    if p.intra || q.intra {
        if is_macroblock_edge { 4 } else { 3 }
    } else if p.coded[p_block] || q.coded[q_block] {
        2
    } else if is_moved_apart(p, p_block, q, q_block) {
        1
    } else {
        0
    }
}

// The number of the block at a place of a column or a row of blocks.
#[inline(always)]
fn block_along(is_vertical: bool, line: usize, place: usize) -> usize
    requires line { line < 4 }
    requires place { place < 4 }
    ensures block { result ≡ block_along is_vertical line place }
    ensures inside { result < 16 }
{
    let (column, row) = if is_vertical {
        (line, place)
    } else {
        (place, line)
    };
    8 * (row / 2) + 4 * (column / 2) + 2 * (row % 2) + column % 2
}

// The strength at a place of an edge that is filtered.
#[inline(always)]
fn strength_at(p: &MbMark, q: &MbMark, is_vertical: bool, edge: usize, place: usize) -> u8
    requires p { IsMark p.now }
    requires q { IsMark q.now }
    requires edge { edge < 4 }
    requires place { place < 4 }
    ensures value { result ≡ strength (edge == 0) p.now (block_along is_vertical ((edge + 3) % 4) place) q.now (block_along is_vertical edge place) }
    ensures most { result ≤ 4 }
{
    let p_block = block_along(is_vertical, (edge + 3) % 4, place);
    let q_block = block_along(is_vertical, edge, place);
    strength(edge == 0, p, p_block, q, q_block)
}

// The strengths at the four places of an edge.
#[inline]
pub(crate) fn strengths(p: &MbMark, q: &MbMark, is_vertical: bool, edge: usize) -> [u8; 4]
    requires p { IsMark p.now }
    requires q { IsMark q.now }
    requires edge { edge < 4 }
    ensures { let at = strength_between p.now q.now is_vertical edge in result ≡ (at 0 ∷ at 1 ∷ at 2 ∷ at 3 ∷ []) }
{
    if !is_edge_filtered(p, q) {
        return [0; 4];
    }
    [
        strength_at(p, q, is_vertical, edge, 0),
        strength_at(p, q, is_vertical, edge, 1),
        strength_at(p, q, is_vertical, edge, 2),
        strength_at(p, q, is_vertical, edge, 3),
    ]
}

// Whether each strength is 0.
#[inline]
pub(crate) fn are_none(strengths: [u8; 4]) -> bool
    ensures { IsTrue result → strengths ≡ (0 ∷ 0 ∷ 0 ∷ 0 ∷ []) }
{
    strengths == [0; 4]
}
