ghost use Rattle.std.specs.Prelude.{◌≡◌, ◌≤◌, length, drop};
ghost use Rattle.bit_io.specs.Bits.{bits_of};
ghost use Rattle.bit_io.specs.Numbers.{ahead, number};

// The eight bytes from a place on as one number, with zeros past the end.
#[inline]
pub fn word_at(bytes: &[u8], byte: usize) -> u64
    requires { byte ≤ length bytes.now }
    ensures { result ≡ number (ahead 64 (bits_of (drop byte bytes.now))) }
{
    let rest = &bytes[byte..];
    match rest.first_chunk::<8>() {
        Some(chunk) => u64::from_be_bytes(*chunk),
        None => short_word(rest),
    }
}

#[cold]
fn short_word(rest: &[u8]) -> u64
    requires { length rest.now ≤ 8 }
    ensures { result ≡ number (ahead 64 (bits_of rest.now)) }
{
    let mut padded = [0u8; 8];
    padded[..rest.len()].copy_from_slice(rest);
    u64::from_be_bytes(padded)
}
