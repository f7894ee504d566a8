ghost use Rattle.std.specs.Prelude.{◌≡◌, ◌-◌, ◌*◌, ◌%◌, ◌<◌, ◌≤◌, ◌^◌, false, [], ◌++◌, OnErr, OnOk, drop, length, replicate, take, vec_len};
ghost use Rattle.bit_io.specs.Bits.{Holds, bits_of, u};
ghost use Rattle.bit_io.specs.Codewords.{IsSe, IsTe, IsU, IsUe, se, se_number, te, ue};
ghost use Rattle.bit_io.specs.Trailing.{trailing_bits};
ghost use Rattle.bit_io.specs.Written.{HasFree, all_but};

use std::alloc::{AllocError, Global};
use std::marker::Model;

/// Writes the syntax elements of a payload to bytes (H.264, 7.2 and 9.1). A contract sees a writer as
/// the bits that are written. An `Err` leaves them as they were.
#[derive(Drop)]
pub struct BitWriter {
    bytes: Vec<u8>,
    // How many low bits of the last byte are not yet written. They are zeros.
    free: u32,
}

impl Model for BitWriter {
    ghost use Rattle.std.specs.Prelude.{List, Bool};
    ghost use Rattle.bit_io.specs.Written.{HasFree, all_but};

    ghost Value = { List Bool };

    ghost view = { λ w. all_but w.free w.bytes.items };

    ghost invariant = { λ w. HasFree w.bytes.items w.free };
}

/// A number of bits written. A contract sees that number.
#[derive(Drop)]
pub struct Mark {
    bytes: usize,
    free: u32,
}

impl Model for Mark {
    ghost use Rattle.std.specs.Prelude.{ℕ, ◌-◌, ◌*◌, ◌<◌, ◌≤◌};

    ghost Value = { ℕ };

    ghost view = { λ m. 8 * m.bytes - m.free };

    ghost invariant = { λ m. (m.free < 8) × (m.free ≤ 8 * m.bytes) };
}

impl BitWriter {
    /// A writer that has written nothing.
    pub fn new(alloc: Global) -> BitWriter
        ensures { result ≡ [] }
    {
        BitWriter {
            bytes: Vec::new(alloc),
            free: 0,
        }
    }

    /// Writes u(n), n up to 32.
    pub fn put_u(&mut self, value: u32, n: u32) -> Result<(), AllocError>
        requires few { n ≤ 32 }
        requires value { IsU n value }
        ensures ok { OnOk result (self.new ≡ self.old ++ u value n) }
        ensures err { OnErr result (self.new ≡ self.old) }
    {
        self.put_bits(u64::from(value), n)
    }

    /// Writes ue(v).
    pub fn put_ue(&mut self, value: u32) -> Result<(), AllocError>
        requires { IsUe value }
        ensures ok { OnOk result (self.new ≡ self.old ++ ue value) }
        ensures err { OnErr result (self.new ≡ self.old) }
    {
        let code = u64::from(value) + 1;
        let zeros = 63 - code.leading_zeros();
        self.put_bits(code, 2 * zeros + 1)
    }

    /// Writes se(v).
    pub fn put_se(&mut self, value: i32) -> Result<(), AllocError>
        requires { IsSe value }
        ensures ok { OnOk result (self.new ≡ self.old ++ se value) }
        ensures err { OnErr result (self.new ≡ self.old) }
    {
        self.put_ue(number_of(value))
    }

    /// Writes te(v) of values up to the greatest.
    pub fn put_te(&mut self, value: u32, greatest: u32) -> Result<(), AllocError>
        requires greatest { 1 ≤ greatest }
        requires value { IsTe greatest value }
        ensures ok { OnOk result (self.new ≡ self.old ++ te value greatest) }
        ensures err { OnErr result (self.new ≡ self.old) }
    {
        if greatest == 1 {
            self.put_u(1 - value, 1)
        } else {
            self.put_ue(value)
        }
    }

    /// Writes rbsp_trailing_bits() of H.264, 7.3.2.11.
    pub fn finish(&mut self) -> Result<(), AllocError>
        ensures ok { OnOk result (self.new ≡ self.old ++ trailing_bits (length self.old)) }
        ensures err { OnErr result (self.new ≡ self.old) }
    {
        let n = if self.free == 0 { 8 } else { self.free };
        self.put_bits(1 << (n - 1), n)
    }

    /// How many bits are free up to the next whole byte, 0 to 7.
    pub fn bits_to_byte(&self) -> u32
        ensures { result ≡ (8 - length self.now % 8) % 8 }
    {
        self.free
    }

    /// The bits written, with the last byte filled up by zeros.
    pub fn bytes(&self) -> &[u8]
        ensures { Holds result.now self.now }
    {
        &self.bytes
    }

    /// How much is written, for `back_to`.
    pub fn mark(&self) -> Mark
        ensures { result ≡ length self.now }
    {
        Mark {
            bytes: self.bytes.len(),
            free: self.free,
        }
    }

    /// Takes back what was written since the mark.
    pub fn back_to(&mut self, mark: Mark)
        requires { mark ≤ length self.old }
        ensures { self.new ≡ take mark self.old }
    {
        cut(&mut self.bytes, mark.bytes, mark.free);
        self.free = mark.free;
    }

    // Writes the n low bits of the value, n up to 64.
    fn put_bits(&mut self, value: u64, n: u32) -> Result<(), AllocError>
        requires few { n ≤ 64 }
        requires value { value < 2 ^ n }
        ensures ok { OnOk result (self.new ≡ self.old ++ u value n) }
        ensures err { OnErr result (self.new ≡ self.old) }
    {
        let len = self.bytes.len();
        let free = self.free;
        if n <= free {
            fill(&mut self.bytes, len, free, value << (free - n));
            self.free = free - n;
            return Ok(());
        }
        let rest = n - free;
        let count = (rest + 7) / 8;
        let behind = (value << (64 - rest)).to_be_bytes();
        self.bytes.extend_from_slice(&behind[..count as usize])?;
        fill(&mut self.bytes, len, free, value >> 1 >> (rest - 1));
        self.free = 8 * count - rest;
        Ok(())
    }
}

// Writes the free bits of the last of the first bytes.
fn fill(bytes: &mut Vec<u8>, len: usize, free: u32, value: u64)
    requires len { len ≤ vec_len bytes.old }
    requires free { HasFree (take len bytes.old.items) free }
    requires value { value < 2 ^ free }
    ensures bits { bits_of bytes.new.items ≡ all_but free (take len bytes.old.items) ++ u value free ++ bits_of (drop len bytes.old.items) }
    ensures len { vec_len bytes.new ≡ vec_len bytes.old }
{
    if free > 0 {
        bytes[len - 1] |= value as u8;
    }
}

// Keeps so many bytes, and makes the free bits of the last of them zeros.
fn cut(bytes: &mut Vec<u8>, len: usize, free: u32)
    requires len { len ≤ vec_len bytes.old }
    requires few { free < 8 }
    requires within { free ≤ 8 * len }
    ensures bits { bits_of bytes.new.items ≡ take (8 * len - free) (bits_of bytes.old.items) ++ replicate free false }
{
    bytes.truncate(len);
    if free > 0 {
        let last = bytes[len - 1];
        bytes[len - 1] = last >> free << free;
    }
}

// The number of the value in Table 9-3.
fn number_of(value: i32) -> u32
    requires { IsSe value }
    ensures { result ≡ se_number value }
{
    let number = 2 * value.unsigned_abs();
    if value > 0 { number - 1 } else { number }
}
