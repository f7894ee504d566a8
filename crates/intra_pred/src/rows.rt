// Rows of blocks in slices.
ghost use Rattle.std.specs.Prelude.{◌≡◌, ℕ, ◌+◌, ◌-◌, ◌*◌, ◌<◌, ◌≤◌, ◌==◌, ◌&&◌, nat_le, nat_lt, if◌then◌else◌, length, slice_index};
ghost use Rattle.intra_pred.specs.Sides.{sample_in};

// Writes the row of this number.
#[inline]
pub(crate) fn put_row(block: &mut [u8], y: usize, row: &[u8])
    requires { (y + 1) * length row.now ≤ length block.old }
    ensures { let width = length row.now in (x y' : ℕ) → x < width → sample_in width block.new x y' ≡ (if y' == y then slice_index row.now x else sample_in width block.old x y') }
{
    put_at(block, y * row.len(), row);
}

// Writes samples from this place on.
#[inline]
fn put_at(block: &mut [u8], start: usize, samples: &[u8])
    requires { start + length samples.now ≤ length block.old }
    ensures { (k : ℕ) → slice_index block.new k ≡ (if nat_le start k && nat_lt k (start + length samples.now) then slice_index samples.now (k - start) else slice_index block.old k) }
{
    block[start..start + samples.len()].copy_from_slice(samples);
}

// Writes the same row into each of these rows.
pub(crate) fn put_rows(block: &mut [u8], from: usize, to: usize, row: &[u8])
    requires order { from ≤ to }
    requires inside { to * length row.now ≤ length block.old }
    ensures written { let width = length row.now in (x y : ℕ) → x < width → from ≤ y → y < to → sample_in width block.new x y ≡ slice_index row.now x }
    ensures kept { let width = length row.now in (x y : ℕ) → x < width → y < from → sample_in width block.new x y ≡ sample_in width block.old x y }
{
    for y in from..to {
        put_row(block, y, row);
    }
}
