// How blocks of 4x4 values lie in arrays.
ghost use Rattle.std.specs.Prelude.{◌≡◌};
ghost use Rattle.int_transform.specs.Scan.{by_rows};

// Four columns, row by row.
#[inline]
pub(crate) fn by_rows(a: [i32; 4], b: [i32; 4], c: [i32; 4], d: [i32; 4]) -> [i32; 16]
    ensures { result ≡ by_rows a b c d }
{
    [
        a[0], b[0], c[0], d[0], a[1], b[1], c[1], d[1], a[2], b[2], c[2], d[2], a[3], b[3], c[3],
        d[3],
    ]
}
