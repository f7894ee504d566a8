ghost use Rattle.std.specs.Prelude.{⊤, [], ◌∷◌, codes};

use bitflags::{Flag, Flags, bitflag_items};

/// The six constraint flags of a sequence parameter set and the two bits reserved behind them, from the
/// highest bit to the lowest as they are spelled (H.264, 7.4.2.1.1).
#[derive(Clone, Copy, Debug, PartialEq, Eq)]
pub struct Constraints(pub u8);

bitflag_items! {
    impl Constraints: u8 {
        const SET0 = 128;
        const SET1 = 64;
        const SET2 = 32;
        const SET3 = 16;
        const SET4 = 8;
        const SET5 = 4;
        const RESERVED_HIGH = 2;
        const RESERVED_LOW = 1;
    }
}

impl Flags for Constraints {
    type Bits = u8;

    ghost exact = { ⊤ };

    ghost table = { (codes "SET0", 128) ∷ (codes "SET1", 64) ∷ (codes "SET2", 32) ∷ (codes "SET3", 16) ∷ (codes "SET4", 8) ∷ (codes "SET5", 4) ∷ (codes "RESERVED_HIGH", 2) ∷ (codes "RESERVED_LOW", 1) ∷ [] };

    ghost set_of = { λ c. c.0 };

    fn flags<'a>() -> &'a [Flag<Constraints>] {
        Constraints::FLAGS
    }

    fn bits(&self) -> u8 {
        self.0
    }

    fn from_bits_retain(bits: u8) -> Constraints {
        Constraints(bits)
    }
}
