// Rows and rectangles of samples in slices.
ghost use Rattle.std.specs.Prelude.{◌≡◌, ℕ, ◌+◌, ◌-◌, ◌*◌, ◌^◌, ◌<◌, ◌≤◌, ◌+ℤ◌, pos, if◌then◌else◌, length, slice_index};
ghost use Rattle.vd_plane.specs.SampleArray.{array_of, covers, nearest, number_in, rect_at, sample};

// The number of 0 to side - 1 that is nearest to z.
pub(crate) fn nearest(z: i64, side: usize) -> usize
    requires some { 1 ≤ side }
    requires signed { side < 2 ^ 63 }
    ensures nearest { result ≡ nearest side z }
    ensures inside { result < side }
{
    z.clamp(0, side as i64 - 1) as usize
}

// Copies the samples from column x of a row on, and the nearest one in the row where there is none.
pub(crate) fn copy_clamped(row: &[u8], x: i64, into: &mut [u8])
    requires { 1 ≤ length row.now }
    ensures { (k : ℕ) → k < length into.new → slice_index into.new k ≡ slice_index row.now (nearest (length row.now) (x +ℤ pos k)) }
{
    if let Ok(start) = usize::try_from(x)
        && start + into.len() <= row.len()
    {
        into.copy_from_slice(&row[start..start + into.len()]);
    } else {
        for (k, sample) in into.iter_mut().enumerate() {
            *sample = row[nearest(x.saturating_add(k as i64), row.len())];
        }
    }
}

// Lays `height` rows of `width` samples, which stand one after the other, over rows of `stride`
// samples, with the first sample in column x of row y.
pub(crate) fn put_rows(
    samples: &mut [u8],
    stride: usize,
    x: usize,
    y: usize,
    width: usize,
    height: usize,
    from: &[u8],
)
    requires stride { 1 ≤ stride }
    requires across { x + width ≤ stride }
    requires down { (y + height) * stride ≤ length samples.old }
    requires count { length from.now ≡ width * height }
    ensures { let rect = rect_at x y width height in (h x' y' : ℕ) → sample (array_of stride h samples.new) x' y' ≡ (if covers rect x' y' then slice_index from.now (number_in rect x' y') else sample (array_of stride h samples.old) x' y') }
{
    for row in 0..height {
        let start = (y + row) * stride + x;
        let place = row * width;
        samples[start..start + width].copy_from_slice(&from[place..place + width]);
    }
}
