// A picture's samples as bytes in the orders that players use.
#![tactic(auto)]

ghost use Rattle.std.specs.Prelude.{◌≡◌, ◌≤◌, length};
ghost use Rattle.vd_plane.specs.Picture.{SameSize};
ghost use Rattle.bits_io.specs.ByteOrder.{byte_count, bytes_of};
ghost use Rattle.bits_io.specs.Laws.{GetAfterPut, PutAfterGet};

use pairs::{deinterleave, interleave};
use vd_plane::Picture;

mod pairs;

/// Y, then Cb and Cr in turn (`VDP_YCBCR_FORMAT_NV12`).
pub const NV12: u32 = 0;

/// Y, then Cr, then Cb (`VDP_YCBCR_FORMAT_YV12`).
pub const YV12: u32 = 1;

/// The number of bytes of a picture, in either format.
pub fn byte_count(picture: &Picture) -> usize
    ensures { result ≡ byte_count picture.now }
{
    picture.y.samples().len() * 3 / 2
}

/// Writes the bytes of a picture in a format, `NV12` or `YV12`.
#[tactic(auto, using(crate::proofs::Counts::counts))]
pub fn get(picture: &Picture, format: u32, out: &mut [u8])
    requires format { format ≤ YV12 }
    requires count { length out.old ≡ byte_count picture.now }
    ensures { out.new ≡ bytes_of format picture.now }
{
    let (luma, chroma) = out.split_at_mut(picture.y.samples().len());
    luma.copy_from_slice(picture.y.samples());
    if format == NV12 {
        interleave(picture.cb.samples(), picture.cr.samples(), chroma);
    } else {
        let (cr, cb) = chroma.split_at_mut(picture.cr.samples().len());
        cr.copy_from_slice(picture.cr.samples());
        cb.copy_from_slice(picture.cb.samples());
    }
}

/// Takes a picture's samples from its bytes in a format, `NV12` or `YV12`.
#[tactic(auto, using(crate::proofs::Counts::counts))]
pub fn put(picture: &mut Picture, format: u32, bytes: &[u8])
    requires format { format ≤ YV12 }
    requires count { length bytes.now ≡ byte_count picture.old }
    ensures size { SameSize picture.old picture.new }
    ensures bytes { bytes_of format picture.new ≡ bytes.now }
{
    let (luma, chroma) = bytes.split_at(picture.y.samples().len());
    picture.y.samples_mut().copy_from_slice(luma);
    if format == NV12 {
        deinterleave(chroma, picture.cb.samples_mut(), picture.cr.samples_mut());
    } else {
        let (cr, cb) = chroma.split_at(picture.cr.samples().len());
        picture.cr.samples_mut().copy_from_slice(cr);
        picture.cb.samples_mut().copy_from_slice(cb);
    }
}

/// Bytes that `get` read, written by `put` into a picture of the same size, leave it with the samples
/// of the one that was read.
pub fn put_after_get()
    ensures { PutAfterGet }
{}

/// What `get` reads after a `put` are the bytes that were written.
pub fn get_after_put()
    ensures { GetAfterPut }
{}
