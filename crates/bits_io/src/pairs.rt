// Two lists of samples in turn.
ghost use Rattle.std.specs.Prelude.{◌≡◌, ◌*◌, length};
ghost use Rattle.bits_io.specs.ByteOrder.{interleaved};

// Writes the samples of both slices in turn.
pub(crate) fn interleave(first: &[u8], second: &[u8], into: &mut [u8])
    requires pairs { length second.now ≡ length first.now }
    requires room { length into.old ≡ 2 * length first.now }
    ensures { into.new ≡ interleaved first.now second.now }
{
    for i in 0..first.len() {
        into[2 * i] = first[i];
        into[2 * i + 1] = second[i];
    }
}

// Takes samples that stand in turn apart.
pub(crate) fn deinterleave(pairs: &[u8], first: &mut [u8], second: &mut [u8])
    requires pairs { length second.old ≡ length first.old }
    requires count { length pairs.now ≡ 2 * length first.old }
    ensures { interleaved first.new second.new ≡ pairs.now }
{
    for i in 0..first.len() {
        first[i] = pairs[2 * i];
        second[i] = pairs[2 * i + 1];
    }
}
