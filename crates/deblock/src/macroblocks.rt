// The edges of macroblocks, in their order.
ghost use Rattle.std.specs.Prelude.{◌≡◌, ◌+◌, ◌*◌, ◌/◌, ◌%◌, ◌<◌, ◌≤◌, [], ◌∷◌, IfSome, Option, Some, length, if◌then◌else◌};
ghost use Rattle.cb_types.specs.SizeMbs.{IsWithinLimits, macroblocks};
ghost use Rattle.int_transform.specs.Bounds.{IsWithin};
ghost use Rattle.deblock.specs.Deblocked.{after_chroma_lines, after_luma_lines};
ghost use Rattle.deblock.specs.Edges.{before, strength_at};
ghost use Rattle.deblock.specs.Marks.{AreMarks};
ghost use Rattle.deblock.specs.Runs.{edge_run};

use crate::edges::{Run, chroma_run, luma_run};
use crate::strength::{are_none, strengths};
use crate::thresholds::{chroma_indexes, luma_indexes};
use cb_types::{MbMark, PictureInfo, SizeMbs, beside};

// Where the lines of edge number `edge` of a macroblock stand, in a plane whose macroblocks are `side`
// samples wide and high.
#[inline]
fn run_of(side: usize, width: u32, mb: u32, is_vertical: bool, edge: usize) -> Run
    requires side { side ≤ 16 }
    requires some { 1 ≤ width }
    requires width { width ≤ 256 }
    requires mb { mb ≤ 36864 }
    requires edge { edge < 4 }
    ensures { result ≡ edge_run side width mb is_vertical edge }
{
    let stride = side * width as usize;
    let corner = side * (mb / width) as usize * stride + side * (mb % width) as usize;
    if is_vertical {
        Run {
            first: corner + 4 * edge,
            step: 1,
            along: stride,
        }
    } else {
        Run {
            first: corner + 4 * edge * stride,
            step: stride,
            along: 1,
        }
    }
}

// The strengths at the four places of an edge, where p0 is in the macroblock `other`.
#[inline]
fn edge_strengths(
    size: SizeMbs,
    marks: &[MbMark],
    mb: u32,
    other: u32,
    is_vertical: bool,
    edge: usize,
) -> [u8; 4]
    requires marks { AreMarks size marks.now }
    requires mb { mb < macroblocks size }
    requires inside { other < macroblocks size }
    requires other { before size.width mb is_vertical edge ≡ Some other }
    requires edge { edge < 4 }
    ensures { let at = strength_at size.width marks.now mb is_vertical edge in result ≡ (at 0 ∷ at 1 ∷ at 2 ∷ at 3 ∷ []) }
{
    let p = &marks[other as usize];
    let q = &marks[mb as usize];
    strengths(p, q, is_vertical, edge)
}

// Filters an edge in luma.
#[inline]
fn luma_edge(
    size: SizeMbs,
    marks: &[MbMark],
    mb: u32,
    other: u32,
    is_vertical: bool,
    edge: usize,
    strengths: [u8; 4],
    y: &mut [u8],
)
    requires size { IsWithinLimits size }
    requires marks { AreMarks size marks.now }
    requires mb { mb < macroblocks size }
    requires inside { other < macroblocks size }
    requires other { before size.width mb is_vertical edge ≡ Some other }
    requires edge { edge < 4 }
    requires strengths { let at = strength_at size.width marks.now mb is_vertical edge in strengths ≡ (at 0 ∷ at 1 ∷ at 2 ∷ at 3 ∷ []) }
    requires y { length y.old ≡ 256 * macroblocks size }
    ensures { y.new ≡ after_luma_lines size.width marks.now (128 * mb + (if is_vertical then 0 else 64) + 16 * edge) 16 y.old }
{
    let run = run_of(16, size.width, mb, is_vertical, edge);
    let indexes = luma_indexes(&marks[other as usize], &marks[mb as usize]);
    luma_run(y, run, indexes, strengths);
}

// Filters an edge in Cb or Cr: number 0 or 1 there, and twice that number in luma.
#[inline]
fn chroma_edge(
    info: &PictureInfo,
    size: SizeMbs,
    marks: &[MbMark],
    mb: u32,
    other: u32,
    is_vertical: bool,
    edge: usize,
    strengths: [u8; 4],
    plane: &mut [u8],
)
    requires offset { IsWithin 12 info.now.chroma_qp_index_offset }
    requires size { IsWithinLimits size }
    requires marks { AreMarks size marks.now }
    requires mb { mb < macroblocks size }
    requires inside { other < macroblocks size }
    requires other { before size.width mb is_vertical (2 * edge) ≡ Some other }
    requires edge { edge < 2 }
    requires strengths { let at = strength_at size.width marks.now mb is_vertical (2 * edge) in strengths ≡ (at 0 ∷ at 1 ∷ at 2 ∷ at 3 ∷ []) }
    requires plane { length plane.old ≡ 64 * macroblocks size }
    ensures { plane.new ≡ after_chroma_lines info.now.chroma_qp_index_offset size.width marks.now (32 * mb + (if is_vertical then 0 else 16) + 8 * edge) 8 plane.old }
{
    let run = run_of(8, size.width, mb, is_vertical, edge);
    let indexes = chroma_indexes(info, &marks[other as usize], &marks[mb as usize]);
    chroma_run(plane, run, indexes, strengths);
}

// Filters an edge that chroma doesn't have.
#[inline]
fn odd_edge(size: SizeMbs, marks: &[MbMark], mb: u32, is_vertical: bool, edge: usize, y: &mut [u8])
    requires size { IsWithinLimits size }
    requires marks { AreMarks size marks.now }
    requires mb { mb < macroblocks size }
    requires some { 1 ≤ edge }
    requires edge { edge < 4 }
    requires y { length y.old ≡ 256 * macroblocks size }
    ensures { y.new ≡ after_luma_lines size.width marks.now (128 * mb + (if is_vertical then 0 else 64) + 16 * edge) 16 y.old }
{
    let strengths = edge_strengths(size, marks, mb, mb, is_vertical, edge);
    if !are_none(strengths) {
        luma_edge(size, marks, mb, mb, is_vertical, edge, strengths, y);
    }
}

// Filters an edge in luma, number 0 or 2, and in both chroma arrays.
#[inline]
fn even_edge(
    info: &PictureInfo,
    size: SizeMbs,
    marks: &[MbMark],
    mb: u32,
    other: u32,
    is_vertical: bool,
    chroma_number: usize,
    y: &mut [u8],
    cb: &mut [u8],
    cr: &mut [u8],
)
    requires offset { IsWithin 12 info.now.chroma_qp_index_offset }
    requires size { IsWithinLimits size }
    requires marks { AreMarks size marks.now }
    requires mb { mb < macroblocks size }
    requires inside { other < macroblocks size }
    requires other { before size.width mb is_vertical (2 * chroma_number) ≡ Some other }
    requires edge { chroma_number < 2 }
    requires y { length y.old ≡ 256 * macroblocks size }
    requires cb { length cb.old ≡ 64 * macroblocks size }
    requires cr { length cr.old ≡ 64 * macroblocks size }
    ensures y { y.new ≡ after_luma_lines size.width marks.now (128 * mb + (if is_vertical then 0 else 64) + 32 * chroma_number) 16 y.old }
    ensures cb { cb.new ≡ after_chroma_lines info.now.chroma_qp_index_offset size.width marks.now (32 * mb + (if is_vertical then 0 else 16) + 8 * chroma_number) 8 cb.old }
    ensures cr { cr.new ≡ after_chroma_lines info.now.chroma_qp_index_offset size.width marks.now (32 * mb + (if is_vertical then 0 else 16) + 8 * chroma_number) 8 cr.old }
{
    let edge = 2 * chroma_number;
    let strengths = edge_strengths(size, marks, mb, other, is_vertical, edge);
    if !are_none(strengths) {
        luma_edge(size, marks, mb, other, is_vertical, edge, strengths, y);
        chroma_edge(
            info,
            size,
            marks,
            mb,
            other,
            is_vertical,
            chroma_number,
            strengths,
            cb,
        );
        chroma_edge(
            info,
            size,
            marks,
            mb,
            other,
            is_vertical,
            chroma_number,
            strengths,
            cr,
        );
    }
}

// The macroblock to the left of a macroblock or above it.
#[inline]
fn before_first(size: SizeMbs, mb: u32, is_vertical: bool) -> Option<u32>
    requires size { IsWithinLimits size }
    requires mb { mb < macroblocks size }
    ensures before { result ≡ before size.width mb is_vertical 0 }
    ensures inside { IfSome result (λ other. other < macroblocks size) }
{
    if is_vertical {
        beside(size, mb, 0)
    } else {
        beside(size, mb, 1)
    }
}

// Filters the first edge of a macroblock in one direction, in all planes.
#[inline]
fn first_edge(
    info: &PictureInfo,
    size: SizeMbs,
    marks: &[MbMark],
    mb: u32,
    is_vertical: bool,
    y: &mut [u8],
    cb: &mut [u8],
    cr: &mut [u8],
)
    requires offset { IsWithin 12 info.now.chroma_qp_index_offset }
    requires size { IsWithinLimits size }
    requires marks { AreMarks size marks.now }
    requires mb { mb < macroblocks size }
    requires y { length y.old ≡ 256 * macroblocks size }
    requires cb { length cb.old ≡ 64 * macroblocks size }
    requires cr { length cr.old ≡ 64 * macroblocks size }
    ensures y { y.new ≡ after_luma_lines size.width marks.now (128 * mb + (if is_vertical then 0 else 64)) 16 y.old }
    ensures cb { cb.new ≡ after_chroma_lines info.now.chroma_qp_index_offset size.width marks.now (32 * mb + (if is_vertical then 0 else 16)) 8 cb.old }
    ensures cr { cr.new ≡ after_chroma_lines info.now.chroma_qp_index_offset size.width marks.now (32 * mb + (if is_vertical then 0 else 16)) 8 cr.old }
{
    match before_first(size, mb, is_vertical) {
        Some(other) => even_edge(info, size, marks, mb, other, is_vertical, 0, y, cb, cr),
        None => {}
    }
}

// Filters the edges of a macroblock in one direction.
fn filter_direction(
    info: &PictureInfo,
    size: SizeMbs,
    marks: &[MbMark],
    mb: u32,
    is_vertical: bool,
    y: &mut [u8],
    cb: &mut [u8],
    cr: &mut [u8],
)
    requires offset { IsWithin 12 info.now.chroma_qp_index_offset }
    requires size { IsWithinLimits size }
    requires marks { AreMarks size marks.now }
    requires mb { mb < macroblocks size }
    requires y { length y.old ≡ 256 * macroblocks size }
    requires cb { length cb.old ≡ 64 * macroblocks size }
    requires cr { length cr.old ≡ 64 * macroblocks size }
    ensures y { y.new ≡ after_luma_lines size.width marks.now (128 * mb + (if is_vertical then 0 else 64)) 64 y.old }
    ensures cb { cb.new ≡ after_chroma_lines info.now.chroma_qp_index_offset size.width marks.now (32 * mb + (if is_vertical then 0 else 16)) 16 cb.old }
    ensures cr { cr.new ≡ after_chroma_lines info.now.chroma_qp_index_offset size.width marks.now (32 * mb + (if is_vertical then 0 else 16)) 16 cr.old }
{
    first_edge(info, size, marks, mb, is_vertical, y, cb, cr);
    odd_edge(size, marks, mb, is_vertical, 1, y);
    even_edge(info, size, marks, mb, mb, is_vertical, 1, y, cb, cr);
    odd_edge(size, marks, mb, is_vertical, 3, y);
}

// Filters the edges of all macroblocks, in the samples of the three planes.
pub(crate) fn filter_planes(
    info: &PictureInfo,
    size: SizeMbs,
    marks: &[MbMark],
    y: &mut [u8],
    cb: &mut [u8],
    cr: &mut [u8],
)
    requires offset { IsWithin 12 info.now.chroma_qp_index_offset }
    requires size { IsWithinLimits size }
    requires marks { AreMarks size marks.now }
    requires y { length y.old ≡ 256 * macroblocks size }
    requires cb { length cb.old ≡ 64 * macroblocks size }
    requires cr { length cr.old ≡ 64 * macroblocks size }
    ensures y { y.new ≡ after_luma_lines size.width marks.now 0 (128 * macroblocks size) y.old }
    ensures cb { cb.new ≡ after_chroma_lines info.now.chroma_qp_index_offset size.width marks.now 0 (32 * macroblocks size) cb.old }
    ensures cr { cr.new ≡ after_chroma_lines info.now.chroma_qp_index_offset size.width marks.now 0 (32 * macroblocks size) cr.old }
{
    for mb in 0..size.macroblocks() {
        filter_direction(info, size, marks, mb, true, y, cb, cr);
        filter_direction(info, size, marks, mb, false, y, cb, cr);
    }
}
