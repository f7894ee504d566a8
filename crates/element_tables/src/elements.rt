//! Syntax elements, each with the test of its value.

ghost use Rattle.std.specs.Prelude.{◌≡◌, ◌≤◌, ◌++◌, OnErr, OnOk, if◌then◌else◌};
ghost use Rattle.bit_io.specs.Bits as bits;
ghost use Rattle.element_tables.specs.Syntax.{Gives, any, between, flag, only, only_flag, se, u, ue, up_to};

use bit_io::{BitReader, BitWriter};
use std::alloc::AllocError;

/// Why reading stops at a syntax element.
#[derive(Clone, Copy)]
pub enum Stop {
    /// No codeword of its kind stands there, or its value is out of its range.
    Malformed,
    /// The Constrained Baseline profile has no such value.
    OtherProfile,
}

/// Reads u(n), n up to 32.
pub fn read_u(reader: &mut BitReader, n: u32) -> Result<u32, Stop>
    requires { n ≤ 32 }
    ensures { Gives (u n any) reader.old result reader.new }
{
    reader.read_u(n).ok_or(Stop::Malformed)
}

/// Reads u(8).
pub fn read_byte(reader: &mut BitReader) -> Result<u8, Stop>
    ensures { Gives (u 8 any) reader.old result reader.new }
{
    match reader.read_u(8) {
        Some(byte) => Ok(byte as u8),
        None => Err(Stop::Malformed),
    }
}

/// Reads u(n), n up to 32, which has this value in the profile.
pub fn read_u_only(reader: &mut BitReader, n: u32, wanted: u32) -> Result<u32, Stop>
    requires { n ≤ 32 }
    ensures { Gives (u n (only wanted)) reader.old result reader.new }
{
    let value = read_u(reader, n)?;
    if value == wanted {
        Ok(value)
    } else {
        Err(Stop::OtherProfile)
    }
}

/// Reads a flag.
pub fn read_flag(reader: &mut BitReader) -> Result<bool, Stop>
    ensures { Gives (flag any) reader.old result reader.new }
{
    let bit = read_u(reader, 1)?;
    Ok(bit == 1)
}

/// Reads a flag which has this value in the profile.
pub fn read_flag_only(reader: &mut BitReader, wanted: bool) -> Result<bool, Stop>
    ensures { Gives (flag (only_flag wanted)) reader.old result reader.new }
{
    let value = read_flag(reader)?;
    if value == wanted {
        Ok(value)
    } else {
        Err(Stop::OtherProfile)
    }
}

/// Reads ue(v).
pub fn read_ue(reader: &mut BitReader) -> Result<u32, Stop>
    ensures { Gives (ue any) reader.old result reader.new }
{
    reader.read_ue().ok_or(Stop::Malformed)
}

/// Reads ue(v) in the range from 0 to the greatest.
pub fn read_ue_up_to(reader: &mut BitReader, greatest: u32) -> Result<u32, Stop>
    ensures { Gives (ue (up_to greatest)) reader.old result reader.new }
{
    let value = read_ue(reader)?;
    if value <= greatest {
        Ok(value)
    } else {
        Err(Stop::Malformed)
    }
}

/// Reads ue(v), which has this value in the profile.
pub fn read_ue_only(reader: &mut BitReader, wanted: u32) -> Result<u32, Stop>
    ensures { Gives (ue (only wanted)) reader.old result reader.new }
{
    let value = read_ue(reader)?;
    if value == wanted {
        Ok(value)
    } else {
        Err(Stop::OtherProfile)
    }
}

/// Reads se(v).
pub fn read_se(reader: &mut BitReader) -> Result<i32, Stop>
    ensures { Gives (se any) reader.old result reader.new }
{
    reader.read_se().ok_or(Stop::Malformed)
}

/// Reads se(v) in the range from the least to the greatest.
pub fn read_se_between(reader: &mut BitReader, least: i32, greatest: i32) -> Result<i32, Stop>
    ensures { Gives (se (between least greatest)) reader.old result reader.new }
{
    let value = read_se(reader)?;
    if least <= value && value <= greatest {
        Ok(value)
    } else {
        Err(Stop::Malformed)
    }
}

/// Writes a flag.
pub fn put_flag(out: &mut BitWriter, value: bool) -> Result<(), AllocError>
    ensures ok { OnOk result (out.new ≡ out.old ++ bits.u (if value then 1 else 0) 1) }
    ensures err { OnErr result (out.new ≡ out.old) }
{
    out.put_u(u32::from(value), 1)
}
