// Emulation prevention: what keeps a start code out of a NAL unit. H.264, 7.3.1 and 7.4.1.
ghost use Rattle.std.specs.Prelude.{◌≡◌, ◌⊎◌, ℕ, ◌+◌, ◌<◌, ◌≤◌, true, length, max, slice_index, IfOk, OnOk, IsErrOf};
ghost use Rattle.bit_io.specs.Payload.{IsAllowedBefore, IsFirstForbidden, follows_zeros, is_prevention, payload};

use std::alloc::{AllocError, Global};

/// Why the bytes of a NAL unit have no payload.
#[derive(Clone, Copy, Debug, PartialEq, Eq)]
pub enum UnescapeFault {
    /// The byte at this place, from 0, stands in no NAL unit.
    Forbidden { at: u64 },
    /// There was no memory for the payload.
    OutOfMemory,
}

impl From<AllocError> for UnescapeFault {
    ghost use Rattle.std.specs.Prelude.{◌≡◌};
    ghost use Rattle.bit_io.specs.declared.emulation.UnescapeFault.TheVariants.{OutOfMemory};

    ghost from_gives = { λ _ e. e ≡ OutOfMemory };

    fn from(_: AllocError) -> Self {
        UnescapeFault::OutOfMemory
    }
}

/// The payload (RBSP) of a NAL unit: its bytes without the emulation prevention bytes. H.264, 7.3.1.
pub fn unescape(alloc: Global, unit: &[u8]) -> Result<Vec<u8>, UnescapeFault>
    ensures payload { IfOk result (λ rbsp. rbsp.items ≡ payload unit.now) }
    ensures allowed { OnOk result (IsAllowedBefore unit.now (length unit.now)) }
    ensures forbidden { (at : ℕ) → IsErrOf result (UnescapeFault.Forbidden at) → IsFirstForbidden unit.now at }
{
    let mut rbsp = Vec::with_capacity(alloc, unit.len())?;
    let mut start = 0;
    loop {
        let at = next_suspect(unit, start);
        rbsp.extend_from_slice(&unit[start..at])?;
        if at == unit.len() {
            return Ok(rbsp);
        }
        check_suspect(unit, at)?;
        start = at + 1;
    }
}

// The first place from `start` on where a byte up to 03 follows two zero bytes, or the length.
fn next_suspect(unit: &[u8], start: usize) -> usize
    requires { start ≤ length unit.now }
    ensures bounds { (start ≤ result) × (result ≤ length unit.now) }
    ensures clear { (i : ℕ) → start ≤ i → i < result → follows_zeros unit.now i ≡ true → 3 < slice_index unit.now i }
    ensures found { result < length unit.now → (follows_zeros unit.now result ≡ true) × (slice_index unit.now result ≤ 3) }
{
    let mut i = start.max(2);
    while i < unit.len() {
        let byte = unit[i];
        if byte <= 3 && unit[i - 1] == 0 && unit[i - 2] == 0 {
            return i;
        }
        // A byte other than 00 is neither the first nor the second of two zero bytes.
        i += if byte == 0 { 1 } else { 3 };
    }
    unit.len()
}

// Whether a byte up to 03 after two zero bytes is an emulation prevention byte in its proper place.
fn check_suspect(unit: &[u8], at: usize) -> Result<(), UnescapeFault>
    requires within { at < length unit.now }
    requires zeros { follows_zeros unit.now at ≡ true }
    requires suspect { slice_index unit.now at ≤ 3 }
    ensures ok { OnOk result ((is_prevention unit.now at ≡ true) × (at + 1 < length unit.now → slice_index unit.now (at + 1) ≤ 3)) }
    ensures forbidden { (bad : ℕ) → IsErrOf result (UnescapeFault.Forbidden bad) →
        ((bad ≡ at) × (slice_index unit.now at < 3))
        ⊎ ((bad ≡ at + 1) × (is_prevention unit.now at ≡ true) × (at + 1 < length unit.now) × (3 < slice_index unit.now (at + 1))) }
{
    if unit[at] < 3 {
        return Err(UnescapeFault::Forbidden { at: at as u64 });
    }
    match unit.get(at + 1) {
        Some(&byte) if byte > 3 => Err(UnescapeFault::Forbidden { at: at as u64 + 1 }),
        _ => Ok(()),
    }
}
