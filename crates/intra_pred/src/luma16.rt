// The prediction of 16x16 luma blocks. H.264, 8.3.3.
ghost use Rattle.std.specs.Prelude.{◌≡◌, ℕ, ◌<◌, is_some, IfSome, slice_index};
ghost use Rattle.intra_pred.specs.Available.{is_available16};
ghost use Rattle.intra_pred.specs.Luma16.{sample16};
ghost use Rattle.intra_pred.specs.Means.{side_mean};
ghost use Rattle.intra_pred.specs.Plane.{plane_at};
ghost use Rattle.intra_pred.specs.Sides.{sample_in};

use crate::means::total;
use crate::plane::put_plane;
use crate::rows::{put_row, put_rows};

/// The samples of a 16x16 luma block in the mode of this number, by rows from the top: from the samples left of it
/// from the top, those above it from the left, and the one above and left. None where there is no such mode, or a
/// side that it needs is missing. H.264, 8.3.3.
pub fn predict16(
    mode: u32,
    left: Option<[u8; 16]>,
    top: Option<[u8; 16]>,
    corner: Option<u8>,
) -> Option<[u8; 256]>
    ensures available { is_some result ≡ is_available16 mode left top corner }
    ensures samples { IfSome result (λ block. (x y : ℕ) → x < 16 → y < 16 → sample_in 16 block x y ≡ sample16 mode left top corner x y) }
{
    match mode {
        0 => Some(vertical(top?)),
        1 => Some(horizontal(left?)),
        2 => Some([mean(left, top); 256]),
        3 => Some(plane(left?, top?, corner?)),
        _ => None,
    }
}

fn vertical(top: [u8; 16]) -> [u8; 256]
    ensures { (x y : ℕ) → x < 16 → y < 16 → sample_in 16 result x y ≡ slice_index top x }
{
    let mut block = [0; 256];
    put_rows(&mut block, 0, 16, &top);
    block
}

fn horizontal(left: [u8; 16]) -> [u8; 256]
    ensures { (x y : ℕ) → x < 16 → y < 16 → sample_in 16 result x y ≡ slice_index left y }
{
    let mut block = [0; 256];
    for y in 0..16 {
        put_row(&mut block, y, &[left[y]; 16]);
    }
    block
}

fn mean(left: Option<[u8; 16]>, top: Option<[u8; 16]>) -> u8
    ensures { result ≡ side_mean 16 left top }
{
    match (left, top) {
        (Some(left), Some(top)) => ((total(&left) + total(&top) + 16) / 32) as u8,
        (Some(side), None) | (None, Some(side)) => ((total(&side) + 8) / 16) as u8,
        (None, None) => 128,
    }
}

fn plane(left: [u8; 16], top: [u8; 16], corner: u8) -> [u8; 256]
    ensures { (x y : ℕ) → x < 16 → y < 16 → sample_in 16 result x y ≡ plane_at 8 5 left top corner x y }
{
    let mut block = [0; 256];
    put_plane(&mut block, 8, 5, &left, &top, corner);
    block
}
