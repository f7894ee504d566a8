// The thresholds of the filter at an edge. H.264, 8.7.2.2.
ghost use Rattle.std.specs.Prelude.{◌≡◌, ◌≤◌, ◌+◌, ◌/◌, pos, ◌+ℤ◌, ◌↔◌, IsTrue};
ghost use Rattle.cb_tables.specs.FilterThresholds.{alpha_at};
ghost use Rattle.int_transform.specs.Bounds.{IsWithin};
ghost use Rattle.int_transform.specs.ChromaQuantizer.{clipped_qp};
ghost use Rattle.deblock.specs.Marks.{IsMark};
ghost use Rattle.deblock.specs.Thresholds.{chroma, filter_by, index_a, index_b, luma, qp_of};

use crate::line::Filter;
use cb_tables::{alpha, beta, tc0};
use cb_types::{MbMark, PictureInfo};
use int_transform::chroma_qp;

// Which rows of the tables an edge takes: indexA and indexB.
#[derive(Clone, Copy)]
pub(crate) struct Indexes {
    pub(crate) a: u32,
    pub(crate) b: u32,
}

// Luma's QP of a macroblock, which counts as 0 for I_PCM.
#[inline(always)]
fn qp_of(mark: &MbMark) -> u32
    requires { IsMark mark.now }
    ensures value { result ≡ qp_of mark.now }
    ensures most { result ≤ 51 }
{
    if mark.pcm { 0 } else { mark.qp }
}

// A quantizer with an offset, inside the tables.
#[inline(always)]
fn clipped(qp: u32, offset: i32) -> u32
    requires qp { qp ≤ 51 }
    requires offset { IsWithin 12 offset }
    ensures value { result ≡ clipped_qp (pos qp +ℤ offset) }
    ensures most { result ≤ 51 }
{
    (qp as i32 + offset).clamp(0, 51) as u32
}

// The rows for the mean of two quantizers, with the offsets of q's slice.
#[inline(always)]
fn indexes_of(p_qp: u32, q_qp: u32, q: &MbMark) -> Indexes
    requires p { p_qp ≤ 51 }
    requires q { q_qp ≤ 51 }
    requires mark { IsMark q.now }
    ensures a { result.a ≡ clipped_qp (pos ((p_qp + q_qp + 1) / 2) +ℤ q.now.alpha) }
    ensures b { result.b ≡ clipped_qp (pos ((p_qp + q_qp + 1) / 2) +ℤ q.now.beta) }
    ensures most_a { result.a ≤ 51 }
    ensures most_b { result.b ≤ 51 }
{
    let mean = (p_qp + q_qp + 1) / 2;
    Indexes {
        a: clipped(mean, q.alpha),
        b: clipped(mean, q.beta),
    }
}

// The rows for an edge of luma.
#[inline]
pub(crate) fn luma_indexes(p: &MbMark, q: &MbMark) -> Indexes
    requires p { IsMark p.now }
    requires q { IsMark q.now }
    ensures a { result.a ≡ index_a luma p.now q.now }
    ensures b { result.b ≡ index_b luma p.now q.now }
    ensures most_a { result.a ≤ 51 }
    ensures most_b { result.b ≤ 51 }
{
    indexes_of(qp_of(p), qp_of(q), q)
}

// The rows for an edge of chroma.
#[inline]
pub(crate) fn chroma_indexes(info: &PictureInfo, p: &MbMark, q: &MbMark) -> Indexes
    requires offset { IsWithin 12 info.now.chroma_qp_index_offset }
    requires p { IsMark p.now }
    requires q { IsMark q.now }
    ensures a { result.a ≡ index_a (chroma info.now.chroma_qp_index_offset) p.now q.now }
    ensures b { result.b ≡ index_b (chroma info.now.chroma_qp_index_offset) p.now q.now }
    ensures most_a { result.a ≤ 51 }
    ensures most_b { result.b ≤ 51 }
{
    let offset = i32::from(info.chroma_qp_index_offset);
    indexes_of(chroma_qp(qp_of(p), offset), chroma_qp(qp_of(q), offset), q)
}

// How a line of a strength above 0 is filtered.
#[inline]
pub(crate) fn filter_by(indexes: Indexes, strength: u8) -> Filter
    requires a { indexes.a ≤ 51 }
    requires b { indexes.b ≤ 51 }
    requires some { 1 ≤ strength }
    requires most { strength ≤ 4 }
    ensures value { result ≡ filter_by indexes.a indexes.b strength }
    ensures alpha { result.alpha ≤ 255 }
    ensures tc0 { result.tc0 ≤ 25 }
{
    Filter {
        strength,
        alpha: alpha(indexes.a),
        beta: beta(indexes.b),
        tc0: if strength == 4 {
            0
        } else {
            tc0(indexes.a, u32::from(strength))
        },
    }
}

// Whether nothing is filtered at these rows, where α is 0.
#[inline]
pub(crate) fn is_passed_over(indexes: Indexes) -> bool
    requires { indexes.a ≤ 51 }
    ensures { IsTrue result ↔ (alpha_at indexes.a ≡ 0) }
{
    alpha(indexes.a) == 0
}
