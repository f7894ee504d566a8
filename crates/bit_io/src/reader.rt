ghost use Rattle.std.specs.Prelude.{◌≡◌, ◌+◌, ◌-◌, ◌*◌, ◌/◌, ◌%◌, ◌<◌, ◌≤◌, ◌^◌, ◌++◌, ◌↔◌, IsTrue, MatchOption, drop, length};
ghost use Rattle.bit_io.specs.Bits.{bits_of, u};
ghost use Rattle.bit_io.specs.Codewords.{IsSe, IsTe, IsU, IsUe, se, se_number, te, ue};
ghost use Rattle.bit_io.specs.Numbers.{ahead, number};
ghost use Rattle.bit_io.specs.Reads.{BeginsNone, Reads};
ghost use Rattle.bit_io.specs.Places.{through_last_one};
ghost use Rattle.bit_io.specs.Trailing.{EndsHere, HasMoreData};

use super::window::word_at;
use std::marker::Model;

// A bit of a byte of the bytes, both counted from 0, and the bits from the highest.
#[derive(Clone, Copy)]
struct Place {
    byte: usize,
    bit: u32,
}

// A codeword of ue that is not yet consumed.
#[derive(Drop)]
struct Code {
    value: u32,
    length: u32,
}

/// Reads the syntax elements of a payload from its bytes (H.264, 7.2 and 9.1). A contract sees a reader
/// as the bits that are left.
#[derive(Drop)]
pub struct BitReader<'a> {
    bytes: &'a [u8],
    place: Place,
    last_one: Place,
}

impl<'a> Model for BitReader<'a> {
    ghost use Rattle.std.specs.Prelude.{drop, List, Bool};
    ghost use Rattle.bit_io.specs.Bits.{bits_of};
    ghost use Rattle.bit_io.specs.Places.{Stands};

    ghost Value = { List Bool };

    ghost view = { λ r. drop r.place.bit (bits_of (drop r.place.byte r.bytes.now)) };

    ghost invariant = { λ r. Stands r.bytes.now r.place.byte r.place.bit r.last_one.byte r.last_one.bit };
}

impl<'a> BitReader<'a> {
    /// A reader of all bits of the bytes.
    pub fn new(bytes: &'a [u8]) -> BitReader<'a>
        ensures { result ≡ bits_of bytes.now }
    {
        BitReader {
            bytes,
            place: Place { byte: 0, bit: 0 },
            last_one: last_one(bytes),
        }
    }

    /// Reads u(n), n up to 32.
    #[inline]
    pub fn read_u(&mut self, n: u32) -> Option<u32>
        requires { n ≤ 32 }
        ensures reads { Reads (IsU n) (λ v. u v n) self.old result self.new }
    {
        if !self.holds(n) {
            return None;
        }
        let value = self.peek(n);
        self.skip(n);
        Some(value)
    }

    /// Reads ue(v).
    #[inline]
    pub fn read_ue(&mut self) -> Option<u32>
        ensures reads { Reads IsUe ue self.old result self.new }
    {
        let code = self.next_ue()?;
        self.skip(code.length);
        Some(code.value)
    }

    /// Reads se(v).
    #[inline]
    pub fn read_se(&mut self) -> Option<i32>
        ensures reads { Reads IsSe se self.old result self.new }
    {
        let number = self.read_ue()?;
        Some(signed(number))
    }

    /// Reads te(v) of values up to the greatest.
    #[inline]
    pub fn read_te(&mut self, greatest: u32) -> Option<u32>
        requires { 1 ≤ greatest }
        ensures reads { Reads (IsTe greatest) (λ v. te v greatest) self.old result self.new }
    {
        if greatest == 1 {
            let reverse = self.read_u(1)?;
            return Some(1 - reverse);
        }
        let code = self.next_ue()?;
        if code.value > greatest {
            return None;
        }
        self.skip(code.length);
        Some(code.value)
    }

    /// Whether a bit stands before the last 1: more_rbsp_data() of H.264, 7.2.
    pub fn more_data(&self) -> bool
        ensures { IsTrue result ↔ HasMoreData self.now }
    {
        self.place.byte < self.last_one.byte
            || (self.place.byte == self.last_one.byte && self.place.bit < self.last_one.bit)
    }

    /// Whether all that is left is a 1 and fewer than eight zeros, which can be rbsp_trailing_bits() of
    /// H.264, 7.3.2.11.
    pub fn ends_here(&self) -> bool
        ensures { IsTrue result ↔ EndsHere self.now }
    {
        !self.holds(9) && self.window() >> 7 == 1 << 56
    }

    /// Whether n bits are left.
    #[inline]
    pub fn holds(&self, n: u32) -> bool
        requires { n ≤ 64 }
        ensures { IsTrue result ↔ (n ≤ length self.now) }
    {
        let bit = self.place.bit + n;
        let byte = self.place.byte + (bit / 8) as usize;
        byte < self.bytes.len() || (byte == self.bytes.len() && bit % 8 == 0)
    }

    /// How many bits are left up to the next whole byte, 0 to 7. What is read ends at a whole byte.
    pub fn bits_to_byte(&self) -> u32
        ensures { result ≡ length self.now % 8 }
    {
        (8 - self.place.bit) % 8
    }

    /// Consumes n bits, whatever they are.
    #[inline]
    pub fn skip(&mut self, n: u32)
        requires few { n ≤ 64 }
        requires held { n ≤ length self.old }
        ensures { self.new ≡ drop n self.old }
    {
        let bit = self.place.bit + n;
        self.place = Place {
            byte: self.place.byte + (bit / 8) as usize,
            bit: bit % 8,
        };
    }

    /// The next n bits as a number, with zeros past the end, n up to 32.
    #[inline]
    pub fn peek(&self, n: u32) -> u32
        requires { n ≤ 32 }
        ensures { result ≡ number (ahead n self.now) }
    {
        (self.window() >> 1 >> (63 - n)) as u32
    }

    /// A second reader of what is left.
    pub fn fork(&self) -> BitReader<'a>
        ensures { result ≡ self.now }
    {
        BitReader {
            bytes: self.bytes,
            place: self.place,
            last_one: self.last_one,
        }
    }

    // The next 57 bits, with zeros past the end, in the high bits.
    #[inline]
    fn window(&self) -> u64
        ensures { result / 2 ^ 7 ≡ number (ahead 57 self.now) }
    {
        word_at(self.bytes, self.place.byte) << self.place.bit
    }

    // The window three bytes further on.
    #[cold]
    fn later_window(&self) -> u64
        requires { 24 ≤ length self.now }
        ensures { result / 2 ^ 7 ≡ number (ahead 57 (drop 24 self.now)) }
    {
        word_at(self.bytes, self.place.byte + 3) << self.place.bit
    }

    // The next 2 * zeros + 1 bits as a number, of which the first are zeros.
    #[inline]
    fn code(&self, window: u64, zeros: u32) -> u64
        requires few { zeros < 32 }
        requires held { 2 * zeros + 1 ≤ length self.now }
        requires over { window / 2 ^ 7 ≡ number (ahead 57 self.now) }
        requires leading { window < 2 ^ (64 - zeros) }
        ensures { result ≡ number (ahead (2 * zeros + 1) self.now) }
    {
        if zeros <= 28 {
            window >> (63 - 2 * zeros)
        } else {
            self.later_window() >> (87 - 2 * zeros)
        }
    }

    #[inline]
    fn next_ue(&self) -> Option<Code>
        ensures { MatchOption result (BeginsNone IsUe ue self.now) (λ code.
            IsUe code.value × (self.now ≡ ue code.value ++ drop code.length self.now) × (code.length ≤ length self.now) × (code.length ≤ 64)) }
    {
        let window = self.window();
        let zeros = window.leading_zeros();
        if zeros > 31 {
            return None;
        }
        if !self.holds(2 * zeros + 1) {
            return None;
        }
        let code = self.code(window, zeros);
        Some(Code {
            value: (code - 1) as u32,
            length: 2 * zeros + 1,
        })
    }
}

// The place of the last 1, and of the first bit where there is none.
fn last_one(bytes: &[u8]) -> Place
    ensures of_byte { result.bit < 8 }
    ensures last { 8 * result.byte + result.bit ≡ through_last_one (bits_of bytes.now) - 1 }
{
    let mut end = bytes.len();
    while end > 0 {
        let byte = bytes[end - 1];
        if byte != 0 {
            return Place {
                byte: end - 1,
                bit: 7 - byte.trailing_zeros(),
            };
        }
        end -= 1;
    }
    Place { byte: 0, bit: 0 }
}

// The value with this number in Table 9-3.
fn signed(number: u32) -> i32
    requires { IsUe number }
    ensures number { se_number result ≡ number }
    ensures value { IsSe result }
{
    let half = (number / 2) as i32;
    if number % 2 == 1 { half + 1 } else { -half }
}
