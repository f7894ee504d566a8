// The prediction of 8x8 chroma blocks. H.264, 8.3.4.
ghost use Rattle.std.specs.Prelude.{◌≡◌, ℕ, ◌+◌, ◌<◌, ◌≤◌, ◌/◌, [], ◌∷◌, is_some, IfSome, slice_index, sum, take, drop};
ghost use Rattle.intra_pred.specs.Available.{is_available_chroma};
ghost use Rattle.intra_pred.specs.Chroma.{block_mean, sample_chroma};
ghost use Rattle.intra_pred.specs.Plane.{plane_at};
ghost use Rattle.intra_pred.specs.Sides.{sample_in};

use crate::means::total;
use crate::plane::put_plane;
use crate::rows::{put_row, put_rows};

/// The samples of an 8x8 chroma block in the mode of this number, by rows from the top: from the samples left of it
/// from the top, those above it from the left, and the one above and left. None where there is no such mode, or a
/// side that it needs is missing. H.264, 8.3.4.
pub fn predict_chroma(
    mode: u32,
    left: Option<[u8; 8]>,
    top: Option<[u8; 8]>,
    corner: Option<u8>,
) -> Option<[u8; 64]>
    ensures available { is_some result ≡ is_available_chroma mode left top corner }
    ensures samples { IfSome result (λ block. (x y : ℕ) → x < 8 → y < 8 → sample_in 8 block x y ≡ sample_chroma mode left top corner x y) }
{
    match mode {
        0 => Some(dc(left, top)),
        1 => Some(horizontal(left?)),
        2 => Some(vertical(top?)),
        3 => Some(plane(left?, top?, corner?)),
        _ => None,
    }
}

fn vertical(top: [u8; 8]) -> [u8; 64]
    ensures { (x y : ℕ) → x < 8 → y < 8 → sample_in 8 result x y ≡ slice_index top x }
{
    let mut block = [0; 64];
    put_rows(&mut block, 0, 8, &top);
    block
}

fn horizontal(left: [u8; 8]) -> [u8; 64]
    ensures { (x y : ℕ) → x < 8 → y < 8 → sample_in 8 result x y ≡ slice_index left y }
{
    let mut block = [0; 64];
    for y in 0..8 {
        put_row(&mut block, y, &[left[y]; 8]);
    }
    block
}

fn dc(left: Option<[u8; 8]>, top: Option<[u8; 8]>) -> [u8; 64]
    ensures { (x y : ℕ) → x < 8 → y < 8 → sample_in 8 result x y ≡ block_mean left top (x / 4) (y / 4) }
{
    let [a, b, c, d] = means(left, top);
    let upper = [a, a, a, a, b, b, b, b];
    let lower = [c, c, c, c, d, d, d, d];
    let mut block = [0; 64];
    put_rows(&mut block, 0, 4, &upper);
    put_rows(&mut block, 4, 8, &lower);
    block
}

// The means of the 4x4 blocks, row by row.
fn means(left: Option<[u8; 8]>, top: Option<[u8; 8]>) -> [u8; 4]
    ensures { result ≡ block_mean left top 0 0 ∷ block_mean left top 1 0 ∷ block_mean left top 0 1 ∷ block_mean left top 1 1 ∷ [] }
{
    match (left, top) {
        (Some(left), Some(top)) => {
            let l = halves(left);
            let t = halves(top);
            [
                ((l.0 + t.0 + 4) / 8) as u8,
                mean4(t.1),
                mean4(l.1),
                ((l.1 + t.1 + 4) / 8) as u8,
            ]
        }
        (Some(left), None) => {
            let l = halves(left);
            let a = mean4(l.0);
            let b = mean4(l.1);
            [a, a, b, b]
        }
        (None, Some(top)) => {
            let t = halves(top);
            let a = mean4(t.0);
            let b = mean4(t.1);
            [a, b, a, b]
        }
        (None, None) => [128; 4],
    }
}

// The mean of four samples, from their sum.
fn mean4(total: u32) -> u8
    requires { total ≤ 1020 }
    ensures { result ≡ (total + 2) / 4 }
{
    ((total + 2) / 4) as u8
}

// The sums of the two halves of a side.
fn halves(side: [u8; 8]) -> (u32, u32)
    ensures first { result.0 ≡ sum (take 4 side) }
    ensures second { result.1 ≡ sum (take 4 (drop 4 side)) }
    ensures first_limit { result.0 ≤ 1020 }
    ensures second_limit { result.1 ≤ 1020 }
{
    (total(&side[..4]), total(&side[4..]))
}

fn plane(left: [u8; 8], top: [u8; 8], corner: u8) -> [u8; 64]
    ensures { (x y : ℕ) → x < 8 → y < 8 → sample_in 8 result x y ≡ plane_at 4 34 left top corner x y }
{
    let mut block = [0; 64];
    put_plane(&mut block, 4, 34, &left, &top, corner);
    block
}
