// Emulation prevention from the payload to the NAL unit. H.264, 7.4.1.
ghost use Rattle.std.specs.Prelude.{◌≡◌, ℕ, ◌≤◌, List, ◌++◌, IfOk, OnOk};
ghost use Rattle.bit_io.specs.Escaped.{IsEscaped, escaped, prevention_at_end, with_prevention, zeros_behind};
ghost use Rattle.bit_io.specs.Payload.{payload};

use std::alloc::{AllocError, Global};

/// The bytes of a NAL unit with this payload (RBSP): 03 stands after 00 00 wherever a byte up to 03 or
/// the end follows. H.264, 7.4.1.
pub fn escape(alloc: Global, rbsp: &[u8]) -> Result<Vec<u8>, AllocError>
    ensures { IfOk result (λ unit. unit.items ≡ escaped rbsp.now) }
{
    let mut unit = Vec::with_capacity(alloc, rbsp.len())?;
    let mut zeros = 0;
    for byte in rbsp {
        push_escaped(&mut unit, zeros, *byte)?;
        zeros = zeros_after(zeros, *byte);
    }
    push_end(&mut unit, zeros)?;
    Ok(unit)
}

/// Unescaping gives back what was escaped. Escaping gives back what was unescaped where the unit has no
/// forbidden byte and doesn't end in two zero bytes, and it gives no other units.
pub fn escaping_is_undone()
    ensures payload { (rbsp : List ℕ) → payload (escaped rbsp) ≡ rbsp }
    ensures form { (rbsp : List ℕ) → IsEscaped (escaped rbsp) }
    ensures unit { (unit : List ℕ) → IsEscaped unit → escaped (payload unit) ≡ unit }
{}

// Appends a byte that stands behind so many zero bytes.
fn push_escaped(unit: &mut Vec<u8>, zeros: u32, byte: u8) -> Result<(), AllocError>
    requires { zeros ≤ 2 }
    ensures { OnOk result (unit.new.items ≡ unit.old.items ++ with_prevention zeros byte) }
{
    if zeros == 2 && byte <= 3 {
        unit.push(3)?;
    }
    unit.push(byte)?;
    Ok(())
}

// Appends what is due before the end behind so many zero bytes.
fn push_end(unit: &mut Vec<u8>, zeros: u32) -> Result<(), AllocError>
    requires { zeros ≤ 2 }
    ensures { OnOk result (unit.new.items ≡ unit.old.items ++ prevention_at_end zeros) }
{
    if zeros == 2 {
        unit.push(3)?;
    }
    Ok(())
}

// How many zero bytes stand before the next byte.
fn zeros_after(before: u32, byte: u8) -> u32
    requires { before ≤ 2 }
    ensures value { result ≡ zeros_behind before byte }
    ensures few { result ≤ 2 }
{
    if byte != 0 {
        0
    } else if before == 2 {
        1
    } else {
        before + 1
    }
}
