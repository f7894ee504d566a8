// The prediction of 4x4 luma blocks. H.264, 8.3.1.2.
ghost use Rattle.std.specs.Prelude.{◌≡◌, ℕ, ◌<◌, is_some, IfSome, length};
ghost use Rattle.intra_pred.specs.Available.{is_available4};
ghost use Rattle.intra_pred.specs.Luma4.{sample4};
ghost use Rattle.intra_pred.specs.Means.{side_mean};
ghost use Rattle.intra_pred.specs.Sides.{eight, sample_in};

use crate::means::total;
use crate::modes4::{
    diagonal_down_left, diagonal_down_right, horizontal, horizontal_down, horizontal_up, vertical,
    vertical_left, vertical_right,
};

/// The samples of a 4x4 luma block in the mode of this number, by rows from the top: from the four samples left of
/// it from the top, the four above it from the left, the four to the right of these, and the one above and left.
/// None where there is no such mode, or a side that it needs is missing. H.264, 8.3.1.2.
pub fn predict4(
    mode: u32,
    left: Option<[u8; 4]>,
    top: Option<[u8; 4]>,
    right: Option<[u8; 4]>,
    corner: Option<u8>,
) -> Option<[u8; 16]>
    ensures available { is_some result ≡ is_available4 mode left top corner }
    ensures samples { IfSome result (λ block. (x y : ℕ) → x < 4 → y < 4 → sample_in 4 block x y ≡ sample4 mode left top right corner x y) }
{
    match mode {
        0 => Some(vertical(top?)),
        1 => Some(horizontal(left?)),
        2 => Some([mean(left, top); 16]),
        3 => Some(diagonal_down_left(eight(top?, right))),
        4 => Some(diagonal_down_right(left?, top?, corner?)),
        5 => Some(vertical_right(left?, top?, corner?)),
        6 => Some(horizontal_down(left?, top?, corner?)),
        7 => Some(vertical_left(eight(top?, right))),
        8 => Some(horizontal_up(left?)),
        _ => None,
    }
}

fn mean(left: Option<[u8; 4]>, top: Option<[u8; 4]>) -> u8
    ensures { result ≡ side_mean 4 left top }
{
    match (left, top) {
        (Some(left), Some(top)) => ((total(&left) + total(&top) + 4) / 8) as u8,
        (Some(side), None) | (None, Some(side)) => ((total(&side) + 2) / 4) as u8,
        (None, None) => 128,
    }
}

// The samples above and to the right. Where the latter are missing, the last of the former stands for each.
fn eight(top: [u8; 4], right: Option<[u8; 4]>) -> [u8; 8]
    ensures { result ≡ eight top right }
{
    let [a, b, c, d] = top;
    let [e, f, g, h] = right.unwrap_or([d; 4]);
    [a, b, c, d, e, f, g, h]
}
