// Rectangles of a macroblock's samples.
ghost use Rattle.std.specs.Prelude.{◌≡◌, ℕ, ◌+◌, ◌*◌, ◌<◌, ◌≤◌, if◌then◌else◌, length, slice_index};
ghost use Rattle.vd_plane.specs.SampleArray.{covers, number_in, rect_at};
ghost use Rattle.vd_plane.specs.Tiles.{sample_in_rows};

/// Lays `height` rows of `width` samples, which stand one after the other, over rows of `stride` samples,
/// with the first sample in column `x` of row `y`.
pub fn put_rect(
    into: &mut [u8],
    stride: usize,
    x: usize,
    y: usize,
    width: usize,
    height: usize,
    from: &[u8],
)
    requires some { 1 ≤ stride }
    requires stride { stride ≤ 16 }
    requires across { x + width ≤ stride }
    requires down { (y + height) * stride ≤ length into.old }
    requires count { length from.now ≡ width * height }
    ensures { (x' y' : ℕ) → x' < stride → sample_in_rows stride into.new x' y' ≡ (if covers (rect_at x y width height) x' y' then slice_index from.now (number_in (rect_at x y width height) x' y') else sample_in_rows stride into.old x' y') }
{
    for row in 0..height {
        let start = (y + row) * stride + x;
        let place = row * width;
        into[start..start + width].copy_from_slice(&from[place..place + width]);
    }
}
