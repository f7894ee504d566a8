// The modes of 4x4 luma blocks. H.264, 8.3.1.2.
ghost use Rattle.std.specs.Prelude.{◌≡◌, slice_index};
ghost use Rattle.intra_pred.specs.Luma4.{diagonal_down_left, diagonal_down_right, horizontal_down, horizontal_up, vertical_left, vertical_right};
ghost use Rattle.intra_pred.specs.Sides.{block4, edge};

use crate::means::{mean2, mean3};

// Mode 0.
pub(crate) fn vertical(top: [u8; 4]) -> [u8; 16]
    ensures { result ≡ block4 (λ x y. slice_index top x) }
{
    let [a, b, c, d] = top;
    [a, b, c, d, a, b, c, d, a, b, c, d, a, b, c, d]
}

// Mode 1.
pub(crate) fn horizontal(left: [u8; 4]) -> [u8; 16]
    ensures { result ≡ block4 (λ x y. slice_index left y) }
{
    let [a, b, c, d] = left;
    [a, a, a, a, b, b, b, b, c, c, c, c, d, d, d, d]
}

// Mode 3.
pub(crate) fn diagonal_down_left(t: [u8; 8]) -> [u8; 16]
    ensures { result ≡ block4 (diagonal_down_left t) }
{
    let a = mean3(t[0], t[1], t[2]);
    let b = mean3(t[1], t[2], t[3]);
    let c = mean3(t[2], t[3], t[4]);
    let d = mean3(t[3], t[4], t[5]);
    let e = mean3(t[4], t[5], t[6]);
    let f = mean3(t[5], t[6], t[7]);
    let g = mean3(t[6], t[7], t[7]);
    [a, b, c, d, b, c, d, e, c, d, e, f, d, e, f, g]
}

// Mode 4.
pub(crate) fn diagonal_down_right(left: [u8; 4], top: [u8; 4], corner: u8) -> [u8; 16]
    ensures { result ≡ block4 (diagonal_down_right (edge top corner) (edge left corner)) }
{
    let a = mean3(left[1], left[2], left[3]);
    let b = mean3(left[0], left[1], left[2]);
    let c = mean3(corner, left[0], left[1]);
    let d = mean3(top[0], corner, left[0]);
    let e = mean3(corner, top[0], top[1]);
    let f = mean3(top[0], top[1], top[2]);
    let g = mean3(top[1], top[2], top[3]);
    [d, e, f, g, c, d, e, f, b, c, d, e, a, b, c, d]
}

// Mode 5.
pub(crate) fn vertical_right(left: [u8; 4], top: [u8; 4], corner: u8) -> [u8; 16]
    ensures { result ≡ block4 (vertical_right (edge top corner) (edge left corner)) }
{
    let a = mean2(corner, top[0]);
    let b = mean2(top[0], top[1]);
    let c = mean2(top[1], top[2]);
    let d = mean2(top[2], top[3]);
    let e = mean3(left[0], corner, top[0]);
    let f = mean3(corner, top[0], top[1]);
    let g = mean3(top[0], top[1], top[2]);
    let h = mean3(top[1], top[2], top[3]);
    let i = mean3(left[1], left[0], corner);
    let j = mean3(left[2], left[1], left[0]);
    [a, b, c, d, e, f, g, h, i, a, b, c, j, e, f, g]
}

// Mode 6, which is mode 5 with rows and columns exchanged.
pub(crate) fn horizontal_down(left: [u8; 4], top: [u8; 4], corner: u8) -> [u8; 16]
    ensures { result ≡ block4 (horizontal_down (edge top corner) (edge left corner)) }
{
    let [a, b, c, d, e, f, g, h, i, j, k, l, m, n, o, p] = vertical_right(top, left, corner);
    [a, e, i, m, b, f, j, n, c, g, k, o, d, h, l, p]
}

// Mode 7.
pub(crate) fn vertical_left(t: [u8; 8]) -> [u8; 16]
    ensures { result ≡ block4 (vertical_left t) }
{
    let a = mean2(t[0], t[1]);
    let b = mean2(t[1], t[2]);
    let c = mean2(t[2], t[3]);
    let d = mean2(t[3], t[4]);
    let e = mean2(t[4], t[5]);
    let f = mean3(t[0], t[1], t[2]);
    let g = mean3(t[1], t[2], t[3]);
    let h = mean3(t[2], t[3], t[4]);
    let i = mean3(t[3], t[4], t[5]);
    let j = mean3(t[4], t[5], t[6]);
    [a, b, c, d, f, g, h, i, b, c, d, e, g, h, i, j]
}

// Mode 8.
pub(crate) fn horizontal_up(left: [u8; 4]) -> [u8; 16]
    ensures { result ≡ block4 (horizontal_up left) }
{
    let a = mean2(left[0], left[1]);
    let b = mean3(left[0], left[1], left[2]);
    let c = mean2(left[1], left[2]);
    let d = mean3(left[1], left[2], left[3]);
    let e = mean2(left[2], left[3]);
    let f = mean3(left[2], left[3], left[3]);
    let g = left[3];
    [a, b, c, d, c, d, e, f, e, f, g, g, g, g, g, g]
}
