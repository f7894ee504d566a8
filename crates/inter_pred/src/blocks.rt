// Blocks of samples made from those of a window: a slice in which samples stand in rows, `stride` from the
// start of one row to that of the next.
ghost use Rattle.std.specs.Prelude.{◌≡◌, ℕ, ◌+◌, ◌*◌, ◌^◌, ◌<◌, ◌≤◌, IfSome, List, length, slice_index};
ghost use Rattle.inter_pred.specs.Luma.{mean};
ghost use Rattle.inter_pred.specs.Parts.{mean_of, near_in, part_at};
ghost use Rattle.inter_pred.specs.Rows.{centre_in, half_in, raised_in};

use crate::parts::{Part, Parts};
use crate::rows::{centre_row, copy_row, half_row, mean_row, sum_row};

// The samples of the greatest block, and the sums of the rows about it.
const MOST_SAMPLES: usize = 256;

const MOST_SUMS: usize = 336;

// Copies rows of samples, from a place on.
pub(crate) fn copy_rows(
    window: &[u8],
    stride: usize,
    start: usize,
    width: usize,
    height: usize,
    out: &mut [u8],
)
    requires count { length out.old ≡ width * height }
    requires room { (r : ℕ) → r < height → start + r * stride + width ≤ length window.now }
    ensures { (i j : ℕ) → i < width → j < height → slice_index out.new (j * width + i) ≡ slice_index window.now (start + j * stride + i) }
{
    for row in 0..height {
        let at = row * width;
        copy_row(&window[start + row * stride..], &mut out[at..at + width]);
    }
}

// Half samples: each between six that stand `step` apart, from a place on.
fn half_rows(
    window: &[u8],
    stride: usize,
    start: usize,
    step: usize,
    width: usize,
    height: usize,
    out: &mut [u8],
)
    requires count { length out.old ≡ width * height }
    requires room { (r : ℕ) → r < height → start + r * stride + 5 * step + width ≤ length window.now }
    ensures { (i j : ℕ) → i < width → j < height → slice_index out.new (j * width + i) ≡ half_in window.now step (start + j * stride + i) }
{
    for row in 0..height {
        let at = row * width;
        half_row(
            &window[start + row * stride..],
            step,
            &mut out[at..at + width],
        );
    }
}

// Raised sums across the rows of a window.
fn sum_rows(window: &[u8], stride: usize, width: usize, height: usize, sums: &mut [u16])
    requires count { length sums.old ≡ width * height }
    requires room { (r : ℕ) → r < height → r * stride + 5 + width ≤ length window.now }
    ensures { (i j : ℕ) → i < width → j < height → slice_index sums.new (j * width + i) ≡ raised_in window.now 1 (j * stride + i) }
{
    for row in 0..height {
        let at = row * width;
        sum_row(&window[row * stride..], &mut sums[at..at + width]);
    }
}

// The samples in the centre from rows of raised sums.
fn centre_rows(sums: &[u16], width: usize, height: usize, out: &mut [u8])
    requires count { length out.old ≡ width * height }
    requires room { length sums.now ≡ width * (height + 5) }
    requires bound { (k : ℕ) → slice_index sums.now k ≤ 13270 }
    ensures { (i j : ℕ) → i < width → j < height → slice_index out.new (j * width + i) ≡ centre_in sums.now width (j * width + i) }
{
    for row in 0..height {
        let at = row * width;
        centre_row(&sums[at..], width, &mut out[at..at + width]);
    }
}

// The samples in the centre, from the rows of a window.
fn centres(window: &[u8], stride: usize, width: usize, height: usize, out: &mut [u8])
    requires columns { width ≤ 16 }
    requires rows { height ≤ 16 }
    requires count { length out.old ≡ width * height }
    requires room { (r : ℕ) → r < height + 5 → r * stride + 5 + width ≤ length window.now }
    ensures { (i j : ℕ) → i < width → j < height → slice_index out.new (j * width + i) ≡ part_at Part.Centre (near_in window.now stride (j * stride + i)) }
{
    let mut sums = [0u16; MOST_SUMS];
    let sums = &mut sums[..width * (height + 5)];
    sum_rows(window, stride, width, height + 5, sums);
    centre_rows(sums, width, height, out);
}

// The samples of one kind about each place of a block, from two columns left of the block and two rows
// above it on.
fn fill(part: Part, window: &[u8], stride: usize, width: usize, height: usize, out: &mut [u8])
    requires columns { width ≤ 16 }
    requires rows { height ≤ 16 }
    requires count { length out.old ≡ width * height }
    requires room { (r : ℕ) → r < height + 5 → r * stride + 5 + width ≤ length window.now }
    ensures { (i j : ℕ) → i < width → j < height → slice_index out.new (j * width + i) ≡ part_at part (near_in window.now stride (j * stride + i)) }
{
    match part {
        Part::Whole => copy_rows(window, stride, 2 * stride + 2, width, height, out),
        Part::WholeRight => copy_rows(window, stride, 2 * stride + 3, width, height, out),
        Part::WholeBelow => copy_rows(window, stride, 3 * stride + 2, width, height, out),
        Part::Across => half_rows(window, stride, 2 * stride, 1, width, height, out),
        Part::AcrossBelow => half_rows(window, stride, 3 * stride, 1, width, height, out),
        Part::Down => half_rows(window, stride, 2, stride, width, height, out),
        Part::DownRight => half_rows(window, stride, 3, stride, width, height, out),
        Part::Centre => centres(window, stride, width, height, out),
    }
}

// Takes the means with samples that stand in rows, from a place on.
fn mean_rows(
    window: &[u8],
    stride: usize,
    start: usize,
    width: usize,
    height: usize,
    out: &mut [u8],
)
    requires count { length out.old ≡ width * height }
    requires room { (r : ℕ) → r < height → start + r * stride + width ≤ length window.now }
    ensures { (i j : ℕ) → i < width → j < height → slice_index out.new (j * width + i) ≡ mean (slice_index out.old (j * width + i)) (slice_index window.now (start + j * stride + i)) }
{
    for row in 0..height {
        let at = row * width;
        mean_row(&window[start + row * stride..], &mut out[at..at + width]);
    }
}

// How far the samples of one kind stand from the corner of a window, where they are whole ones.
fn whole_start(part: Part, stride: usize) -> Option<usize>
    requires { stride < 2 ^ 32 }
    ensures place { IfSome result (λ start. (window : List ℕ) (place : ℕ) → slice_index window (start + place) ≡ part_at part (near_in window stride place)) }
    ensures inside { IfSome result (λ start. start ≤ 3 * stride + 3) }
{
    match part {
        Part::Whole => Some(2 * stride + 2),
        Part::WholeRight => Some(2 * stride + 3),
        Part::WholeBelow => Some(3 * stride + 2),
        _ => None,
    }
}

// Takes the means with the samples of one kind about each place of a block.
fn mix(part: Part, window: &[u8], stride: usize, width: usize, height: usize, out: &mut [u8])
    requires columns { width ≤ 16 }
    requires rows { height ≤ 16 }
    requires stride { stride < 2 ^ 32 }
    requires count { length out.old ≡ width * height }
    requires room { (r : ℕ) → r < height + 5 → r * stride + 5 + width ≤ length window.now }
    ensures { (i j : ℕ) → i < width → j < height → slice_index out.new (j * width + i) ≡ mean (slice_index out.old (j * width + i)) (part_at part (near_in window.now stride (j * stride + i))) }
{
    if let Some(start) = whole_start(part, stride) {
        mean_rows(window, stride, start, width, height, out);
    } else {
        let mut others = [0u8; MOST_SAMPLES];
        let others = &mut others[..width * height];
        fill(part, window, stride, width, height, others);
        mean_row(others, out);
    }
}

// The samples of one kind, or the means of two kinds, about each place of a block.
pub(crate) fn fill_all(
    parts: Parts,
    window: &[u8],
    stride: usize,
    width: usize,
    height: usize,
    out: &mut [u8],
)
    requires columns { width ≤ 16 }
    requires rows { height ≤ 16 }
    requires stride { stride < 2 ^ 32 }
    requires count { length out.old ≡ width * height }
    requires room { (r : ℕ) → r < height + 5 → r * stride + 5 + width ≤ length window.now }
    ensures { (i j : ℕ) → i < width → j < height → slice_index out.new (j * width + i) ≡ mean_of parts (near_in window.now stride (j * stride + i)) }
{
    fill(parts.first, window, stride, width, height, out);
    if let Some(second) = parts.second {
        mix(second, window, stride, width, height, out);
    }
}
