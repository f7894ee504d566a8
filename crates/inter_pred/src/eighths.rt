// Chroma samples between whole ones.
ghost use Rattle.std.specs.Prelude.{◌≡◌, ℕ, ◌+◌, ◌*◌, ◌^◌, ◌<◌, ◌≤◌, pos, ◌+ℤ◌, length, slice_index, unsigned_abs};
ghost use Rattle.vd_plane.specs.SampleArray.{nearest_sample};
ghost use Rattle.inter_pred.specs.Chroma.{eighth};
ghost use Rattle.inter_pred.specs.Rows.{eighth_in};

use crate::lanes::eighth_lanes;
use crate::windows::inside;
use vd_plane::Plane;

// The whole samples about the greatest block.
const MOST_SAMPLES: usize = 289;

// Where a sample lies beyond a whole one, in eighths.
#[derive(Clone, Copy)]
pub(crate) struct Eighths {
    pub(crate) right: u16,
    pub(crate) below: u16,
    ghost right_in_range: { right < 8 },
    ghost below_in_range: { below < 8 },
}

// The sample between four whole ones.
#[inline(always)]
fn between(eighths: Eighths, p: u8, q: u8, r: u8, s: u8) -> u8
    ensures { result ≡ eighth eighths.right eighths.below p q r s }
{
    let (x, y) = (eighths.right, eighths.below);
    let above = (8 - x) * u16::from(p) + x * u16::from(q);
    let below = (8 - x) * u16::from(r) + x * u16::from(s);
    (((8 - y) * above + y * below + 32) / 64) as u8
}

// A sample for each place between the row above and the one below.
#[inline]
fn eighth_row(eighths: Eighths, above: &[u8], below: &[u8], out: &mut [u8])
    requires above { 1 + length out.old ≤ length above.now }
    requires below { 1 + length out.old ≤ length below.now }
    ensures { (k : ℕ) → k < length out.new → slice_index out.new k ≡ eighth_in eighths.right eighths.below above.now below.now k }
{
    let blocks = out.len() / 8;
    for block in 0..blocks {
        eighth_lanes(eighths, above, below, 8 * block).copy_to_slice(&mut out[8 * block..]);
    }
    eighth_rest(eighths, above, below, 8 * blocks, out);
}

// The samples of a row of which the first ones stand already.
fn eighth_rest(eighths: Eighths, above: &[u8], below: &[u8], first: usize, out: &mut [u8])
    requires above { 1 + length out.old ≤ length above.now }
    requires below { 1 + length out.old ≤ length below.now }
    requires first { (k : ℕ) → k < first → slice_index out.old k ≡ eighth_in eighths.right eighths.below above.now below.now k }
    ensures { (k : ℕ) → k < length out.new → slice_index out.new k ≡ eighth_in eighths.right eighths.below above.now below.now k }
{
    for k in first..out.len() {
        out[k] = between(eighths, above[k], above[k + 1], below[k], below[k + 1]);
    }
}

// A block of samples from those of a window: a slice in which samples stand in rows, `stride` from the
// start of one row to that of the next.
fn eighth_rows(
    eighths: Eighths,
    window: &[u8],
    stride: usize,
    width: usize,
    height: usize,
    out: &mut [u8],
)
    requires count { length out.old ≡ width * height }
    requires room { (r : ℕ) → r < height + 1 → r * stride + 1 + width ≤ length window.now }
    ensures { (i j : ℕ) → i < width → j < height → let k = j * stride + i in slice_index out.new (j * width + i) ≡ eighth eighths.right eighths.below (slice_index window.now k) (slice_index window.now (k + 1)) (slice_index window.now (k + stride)) (slice_index window.now (k + stride + 1)) }
{
    for row in 0..height {
        let at = row * width;
        let place = row * stride;
        eighth_row(
            eighths,
            &window[place..],
            &window[place + stride..],
            &mut out[at..at + width],
        );
    }
}

// The samples between whole ones of a rectangle.
pub(crate) fn predict(
    plane: &Plane,
    column: i64,
    row: i64,
    eighths: Eighths,
    width: u32,
    height: u32,
    out: &mut [u8],
)
    requires column { unsigned_abs column ≤ 2 ^ 20 }
    requires row { unsigned_abs row ≤ 2 ^ 20 }
    requires columns { width ≤ 16 }
    requires rows { height ≤ 16 }
    requires count { length out.old ≡ width * height }
    ensures { (i j : ℕ) → i < width → j < height → slice_index out.new (j * width + i) ≡ eighth eighths.right eighths.below (nearest_sample plane.now (column +ℤ pos i) (row +ℤ pos j)) (nearest_sample plane.now (column +ℤ pos (i + 1)) (row +ℤ pos j)) (nearest_sample plane.now (column +ℤ pos i) (row +ℤ pos (j + 1))) (nearest_sample plane.now (column +ℤ pos (i + 1)) (row +ℤ pos (j + 1))) }
{
    let columns = width + 1;
    let rows = height + 1;
    if let Some(window) = inside(plane, column, row, columns, rows) {
        let stride = plane.width() as usize;
        eighth_rows(
            eighths,
            window,
            stride,
            width as usize,
            height as usize,
            out,
        );
    } else {
        let mut rect = [0u8; MOST_SAMPLES];
        let rect = &mut rect[..(columns * rows) as usize];
        plane.clamped_rect(column, row, columns, rows, rect);
        eighth_rows(
            eighths,
            rect,
            columns as usize,
            width as usize,
            height as usize,
            out,
        );
    }
}
