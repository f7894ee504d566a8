// Luma samples between whole ones.
ghost use Rattle.std.specs.Prelude.{◌≡◌, ℕ, ◌+◌, ◌*◌, ◌^◌, ◌<◌, ◌≤◌, pos, ◌+ℤ◌, length, slice_index, unsigned_abs};
ghost use Rattle.inter_pred.specs.Luma.{near};
ghost use Rattle.inter_pred.specs.Parts.{mean_of};

use crate::blocks::fill_all;
use crate::parts::Parts;
use crate::windows::inside;
use vd_plane::Plane;

// The whole samples about the greatest block.
const MOST_SAMPLES: usize = 441;

// The samples of one kind, or the means of two kinds, about each whole place of a rectangle.
pub(crate) fn predict(
    plane: &Plane,
    column: i64,
    row: i64,
    parts: Parts,
    width: u32,
    height: u32,
    out: &mut [u8],
)
    requires column { unsigned_abs column ≤ 2 ^ 20 }
    requires row { unsigned_abs row ≤ 2 ^ 20 }
    requires columns { width ≤ 16 }
    requires rows { height ≤ 16 }
    requires count { length out.old ≡ width * height }
    ensures { (i j : ℕ) → i < width → j < height → slice_index out.new (j * width + i) ≡ mean_of parts (near plane.now (column +ℤ pos i) (row +ℤ pos j)) }
{
    let left = column - 2;
    let top = row - 2;
    let columns = width + 5;
    let rows = height + 5;
    if let Some(window) = inside(plane, left, top, columns, rows) {
        let stride = plane.width() as usize;
        fill_all(parts, window, stride, width as usize, height as usize, out);
    } else {
        let mut rect = [0u8; MOST_SAMPLES];
        let rect = &mut rect[..(columns * rows) as usize];
        plane.clamped_rect(left, top, columns, rows, rect);
        fill_all(
            parts,
            rect,
            columns as usize,
            width as usize,
            height as usize,
            out,
        );
    }
}
