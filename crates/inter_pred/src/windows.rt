// Windows: slices in which samples of a plane stand in rows.
ghost use Rattle.std.specs.Prelude.{◌≡◌, ℕ, ◌+◌, ◌*◌, ◌^◌, ◌<◌, ◌≤◌, pos, ◌+ℤ◌, unsigned_abs, IfSome, length, slice_index};
ghost use Rattle.vd_plane.specs.SampleArray.{nearest_sample};
ghost use Rattle.inter_pred.specs.Windows.{Shows};

use crate::blocks::copy_rows;
use vd_plane::Plane;

// The plane's own samples from a column and a row on, where a rectangle from there lies inside the plane.
// Its rows have the plane's width between them.
#[inline]
pub(crate) fn inside(plane: &Plane, column: i64, row: i64, columns: u32, rows: u32) -> Option<&[u8]>
    requires column { unsigned_abs column ≤ 2 ^ 21 }
    requires row { unsigned_abs row ≤ 2 ^ 21 }
    requires columns { columns ≤ 21 }
    requires some_row { 1 ≤ rows }
    requires rows { rows ≤ 21 }
    ensures { IfSome result (λ window. Shows plane.now column row columns rows window.now plane.now.width) }
{
    if column < 0 || row < 0 {
        return None;
    }
    let left = column as usize;
    let top = row as usize;
    let stride = plane.width() as usize;
    if left + columns as usize > stride || top + rows as usize > plane.height() as usize {
        return None;
    }
    Some(&plane.samples()[top * stride + left..])
}

// Copies a rectangle of samples.
pub(crate) fn copy(plane: &Plane, column: i64, row: i64, width: u32, height: u32, out: &mut [u8])
    requires column { unsigned_abs column ≤ 2 ^ 20 }
    requires row { unsigned_abs row ≤ 2 ^ 20 }
    requires columns { width ≤ 16 }
    requires some_row { 1 ≤ height }
    requires rows { height ≤ 16 }
    requires count { length out.old ≡ width * height }
    ensures { (i j : ℕ) → i < width → j < height → slice_index out.new (j * width + i) ≡ nearest_sample plane.now (column +ℤ pos i) (row +ℤ pos j) }
{
    if let Some(window) = inside(plane, column, row, width, height) {
        let stride = plane.width() as usize;
        copy_rows(window, stride, 0, width as usize, height as usize, out);
    } else {
        plane.clamped_rect(column, row, width, height, out);
    }
}
