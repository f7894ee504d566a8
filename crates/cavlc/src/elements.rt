// The elements of a block that tables spell: coeff_token, total_zeros and run_before. H.264, 9.2.1 and 9.2.3.
ghost use Rattle.std.specs.Prelude.{◌≡◌, ◌<◌, ◌≤◌, ◌++◌, IfNone, IfSome, OnErr, OnOk, ℕ};
ghost use Rattle.cb_tables.specs.Codes.{BeginsWith, IsCode};
ghost use Rattle.cb_tables.specs.CoeffToken.{IsToken};
ghost use Rattle.cavlc.specs.Blocks.{HasRunCode, HasZerosCode, code_bits, run_bits, token_bits, token_list, zeros_bits, zeros_code};
ghost use Rattle.cavlc.specs.Parts.{Gives, IsZeros};

use bit_io::{BitReader, BitWriter};
use cb_tables::{
    Code, Found, dc_zeros, find_dc_zeros, find_run, find_token, find_zeros, run, token, zeros,
};
use std::alloc::AllocError;

// coeff_token: TotalCoeff and TrailingOnes.
#[derive(Clone, Copy)]
pub(crate) struct Token {
    pub(crate) total: u32,
    pub(crate) ones: u32,
}

// The list of Table 9-5 for an nC.
#[inline]
pub(crate) fn list_of(nc: i32) -> u32
    ensures { result ≡ token_list nc }
{
    if nc < 0 {
        4
    } else if nc < 2 {
        0
    } else if nc < 4 {
        1
    } else if nc < 8 {
        2
    } else {
        3
    }
}

#[inline]
pub(crate) fn read_token(reader: &mut BitReader, nc: i32) -> Option<Token>
    ensures { Gives (λ token. IsToken (token_list nc) token.total token.ones) (λ token. token_bits nc token.total token.ones) reader.old result reader.new }
{
    let found = find_token(list_of(nc), reader.peek(32))?;
    if !reader.holds(found.length) {
        return None;
    }
    reader.skip(found.length);
    Some(Token {
        total: found.total,
        ones: found.ones,
    })
}

// total_zeros of a block with so many levels, 0 where it isn't spelled.
#[inline]
pub(crate) fn read_zeros(reader: &mut BitReader, total: u32, most: u32) -> Option<u32>
    requires within { total ≤ most }
    requires most { most ≤ 16 }
    ensures { Gives (IsZeros most total) (zeros_bits most total) reader.old result reader.new }
{
    if total == 0 || total == most {
        return Some(0);
    }
    let found = next_zeros(reader.peek(32), total, most)?;
    if found.value > most - total || !reader.holds(found.length) {
        return None;
    }
    reader.skip(found.length);
    Some(found.value)
}

// The total_zeros whose code begins a window.
#[inline]
fn next_zeros(window: u32, total: u32, most: u32) -> Option<Found>
    requires some { 1 ≤ total }
    requires within { total < most }
    requires most { most ≤ 16 }
    ensures zeros { IfSome result (λ found. HasZerosCode most total found.value) }
    ensures begins { IfSome result (λ found. BeginsWith window (zeros_code most total found.value)) }
    ensures length { IfSome result (λ found. found.length ≡ (zeros_code most total found.value).length) }
    ensures none { IfNone result ((zeros : ℕ) → HasZerosCode most total zeros → ¬ BeginsWith window (zeros_code most total zeros)) }
{
    if most == 4 {
        find_dc_zeros(total, window)
    } else {
        find_zeros(total, window)
    }
}

// run_before where so many zeros are left, 0 where none are.
#[inline]
pub(crate) fn read_run(reader: &mut BitReader, left: u32) -> Option<u32>
    ensures { Gives (HasRunCode left) (run_bits left) reader.old result reader.new }
{
    if left == 0 {
        return Some(0);
    }
    let found = find_run(left, reader.peek(32))?;
    if found.value > left || !reader.holds(found.length) {
        return None;
    }
    reader.skip(found.length);
    Some(found.value)
}

#[inline]
fn put_code(out: &mut BitWriter, code: Code) -> Result<(), AllocError>
    requires { IsCode code }
    ensures ok { OnOk result (out.new ≡ out.old ++ code_bits code) }
    ensures err { OnErr result (out.new ≡ out.old) }
{
    out.put_u(code.value, code.length)
}

pub(crate) fn put_token(
    out: &mut BitWriter,
    nc: i32,
    total: u32,
    ones: u32,
) -> Result<(), AllocError>
    requires { IsToken (token_list nc) total ones }
    ensures ok { OnOk result (out.new ≡ out.old ++ token_bits nc total ones) }
    ensures err { OnErr result (out.new ≡ out.old) }
{
    put_code(out, token(list_of(nc), total, ones))
}

pub(crate) fn put_zeros(
    out: &mut BitWriter,
    most: u32,
    total: u32,
    zeros_before: u32,
) -> Result<(), AllocError>
    requires { HasZerosCode most total zeros_before }
    ensures ok { OnOk result (out.new ≡ out.old ++ zeros_bits most total zeros_before) }
    ensures err { OnErr result (out.new ≡ out.old) }
{
    if total == 0 || total >= most {
        return Ok(());
    }
    let code = if most == 4 {
        dc_zeros(total, zeros_before)
    } else {
        zeros(total, zeros_before)
    };
    put_code(out, code)
}

pub(crate) fn put_run(out: &mut BitWriter, left: u32, run_before: u32) -> Result<(), AllocError>
    requires { HasRunCode left run_before }
    ensures ok { OnOk result (out.new ≡ out.old ++ run_bits left run_before) }
    ensures err { OnErr result (out.new ≡ out.old) }
{
    if left == 0 {
        return Ok(());
    }
    put_code(out, run(left, run_before))
}
