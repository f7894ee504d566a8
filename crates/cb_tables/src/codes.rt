// Variable-length codes. H.264, 9.2.
ghost use Rattle.std.specs.Prelude.{◌≡◌, ◌↔◌, IsTrue};
ghost use Rattle.cb_tables.specs.Codes.{BeginsWith, IsCode, code_of};

/// A variable-length code: so many bits, which spell a number.
#[derive(Clone, Copy, Debug, PartialEq, Eq)]
pub struct Code {
    /// The number of bits, 1 to 16.
    pub length: u32,
    /// What the bits spell, the first of them the highest.
    pub value: u32,
}

/// The number whose code begins a window.
#[derive(Clone, Copy, Debug, PartialEq, Eq)]
pub struct Found {
    /// The number.
    pub value: u32,
    /// The number of bits of its code.
    pub length: u32,
}

// The code of an entry (length, value) of a table.
#[inline]
pub(crate) fn code_of(entry: (u8, u8)) -> Code
    ensures { result ≡ code_of entry }
{
    Code {
        length: u32::from(entry.0),
        value: u32::from(entry.1),
    }
}

// Whether the 32 bits of the window begin with the code.
#[inline]
pub(crate) fn begins(window: u32, code: Code) -> bool
    requires { IsCode code }
    ensures { IsTrue result ↔ BeginsWith window code }
{
    window >> (32 - code.length) == code.value
}
