// The luma quantizer through a slice. H.264, 7.4.3 and 7.4.5.
ghost use Rattle.std.specs.Prelude.{◌≡◌, ◌≤◌, ◌+ℤ◌, ◌≤ℤ◌, pos, negsuc};
ghost use Rattle.cb_types.specs.AcceptedInfo.{IsAcceptedBySome};
ghost use Rattle.recon.specs.Quantizer.{chroma_qp_of, first_qp, next_qp};

use cb_types::{Header, PictureInfo};
use int_transform::chroma_qp;

/// The QP before the first macroblock of a slice: SliceQPY.
pub fn first_qp(info: &PictureInfo, header: &Header) -> u32
    requires least { pos 0 ≤ℤ (pos 26 +ℤ info.now.pic_init_qp_minus26 +ℤ header.now.qp_delta) }
    requires greatest { (pos 26 +ℤ info.now.pic_init_qp_minus26 +ℤ header.now.qp_delta) ≤ℤ pos 51 }
    ensures qp { result ≡ first_qp info.now header.now }
    ensures limit { result ≤ 51 }
{
    (26 + i32::from(info.pic_init_qp_minus26) + header.qp_delta) as u32
}

/// The QP of a macroblock, from that before it and its mb_qp_delta, which is 0 where it isn't spelled.
pub fn next_qp(qp: u32, delta: i32) -> u32
    requires qp { qp ≤ 51 }
    requires least { negsuc 25 ≤ℤ delta }
    requires greatest { delta ≤ℤ pos 25 }
    ensures qp { result ≡ next_qp qp delta }
    ensures limit { result ≤ 51 }
{
    (qp as i32 + delta + 52).rem_euclid(52) as u32
}

/// QPc of both chroma arrays of a macroblock with this QP.
pub fn chroma_qp_of(info: &PictureInfo, qp: u32) -> u32
    requires info { IsAcceptedBySome info.now }
    requires qp { qp ≤ 51 }
    ensures qpc { result ≡ chroma_qp_of info.now qp }
    ensures limit { result ≤ 51 }
{
    chroma_qp(qp, i32::from(info.chroma_qp_index_offset))
}
