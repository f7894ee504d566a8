// The quantizer of chroma. H.264, 8.5.8.
ghost use Rattle.std.specs.Prelude.{◌≡◌, ◌≤◌};
ghost use Rattle.int_transform.specs.Bounds.{IsWithin};
ghost use Rattle.int_transform.specs.ChromaQuantizer.{chroma_qp_from};

use cb_tables::chroma_qp_of;

/// QPc of 0 to 39, for luma's QP of 0 to 51 and an offset of -12 to 12. H.264, 8.5.8.
#[inline]
pub fn chroma_qp(qp: u32, offset: i32) -> u32
    requires qp { qp ≤ 51 }
    requires offset { IsWithin 12 offset }
    ensures value { result ≡ chroma_qp_from qp offset }
    ensures limit { result ≤ 39 }
{
    chroma_qp_of((qp as i32 + offset).clamp(0, 51) as u32)
}
