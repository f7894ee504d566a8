// Rounded means. H.264, 8.3.
ghost use Rattle.std.specs.Prelude.{◌≡◌, ◌≤◌, ◌^◌, ◌<◌, ◌*◌, length, sum};
ghost use Rattle.intra_pred.specs.Means.{mean2, mean3};

#[inline]
pub(crate) fn mean2(a: u8, b: u8) -> u8
    ensures { result ≡ mean2 a b }
{
    ((u32::from(a) + u32::from(b) + 1) / 2) as u8
}

#[inline]
pub(crate) fn mean3(a: u8, b: u8, c: u8) -> u8
    ensures { result ≡ mean3 a b c }
{
    ((u32::from(a) + 2 * u32::from(b) + u32::from(c) + 2) / 4) as u8
}

// The sum of a side of up to 16 samples.
#[inline]
pub(crate) fn total(side: &[u8]) -> u32
    requires { length side.now ≤ 16 }
    ensures value { result ≡ sum side.now }
    ensures limit { result ≤ 255 * length side.now }
{
    let mut total = 0;
    for sample in side {
        total += u32::from(*sample);
    }
    total
}
