// The macroblocks of a slice that lie beside one.
ghost use Rattle.std.specs.Prelude.{◌≡◌, ◌+◌, ◌<◌};
ghost use Rattle.cb_types.specs.SizeMbs.{IsWithinLimits, macroblocks};
ghost use Rattle.motion.specs.Around.{around_of, in_slice};

use cb_types::{SizeMbs, beside};

/// The macroblocks beside one that are of its slice, and so available (H.264, 6.4.8 and 6.4.9): left (A),
/// above (B), above and right (C), above and left (D). Each is named by its number in the slice, whose
/// first macroblock is 0.
#[derive(Clone, Copy, Debug, PartialEq, Eq)]
pub struct Around {
    pub left: Option<u32>,
    pub above: Option<u32>,
    pub above_right: Option<u32>,
    pub above_left: Option<u32>,
}

/// What lies beside macroblock `number` of the slice that begins at address `first`.
#[tactic(auto, unfolding(crate::specs::Around::around_of))]
pub fn around_of(size: SizeMbs, first: u32, number: u32) -> Around
    requires size { IsWithinLimits size }
    requires inside { first + number < macroblocks size }
    ensures { result ≡ around_of first size.width number }
{
    let address = first + number;
    Around {
        left: in_slice(first, beside(size, address, 0)),
        above: in_slice(first, beside(size, address, 1)),
        above_right: in_slice(first, beside(size, address, 2)),
        above_left: in_slice(first, beside(size, address, 3)),
    }
}

fn in_slice(first: u32, address: Option<u32>) -> Option<u32>
    ensures { result ≡ in_slice first address }
{
    match address {
        Some(address) if address >= first => Some(address - first),
        _ => None,
    }
}
