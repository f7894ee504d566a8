//! Byte streams (H.264, Annex B): how one reads, and how one is written.

ghost use Rattle.std.specs.Prelude.{◌≡◌, ℕ, ◌+◌, List, ◌++◌, map, flat_map, sum_by, All, Option, None, IfOk, IfSome, vec_len};
ghost use Rattle.nal_units.specs.Units.{Units, IsUnit};
ghost use Rattle.nal_units.specs.ByteStream.{start_code, joined_places, bytes_at};

use std::alloc::{AllocError, Global};

/// A text has one list of units, and at most one broken place.
pub fn text_has_one_reading()
    ensures some { (text : List ℕ) → (units : List (ℕ × ℕ)) × (broken : Option ℕ) × Units text units broken }
    ensures one { (text : List ℕ) (units others : List (ℕ × ℕ)) (broken other : Option ℕ) →
        Units text units broken → Units text others other → (units ≡ others) × (broken ≡ other) }
{}

/// The text that has these units, each behind `00 00 00 01`.
pub fn join(alloc: Global, units: &Vec<Vec<u8>>) -> Result<Vec<u8>, AllocError>
    ensures text { IfOk result (λ text. text.items ≡ flat_map (λ unit. start_code ++ unit.items) units.now.items) }

    // What may stand in a byte stream is found there again, unit by unit.
    ensures units { IfOk result (λ text. All (λ unit. IsUnit unit.items) units.now.items →
        Units text.items (joined_places 0 (map (λ unit. unit.items) units.now.items)) None) }
    ensures bytes { IfOk result (λ text.
        bytes_at text.items (joined_places 0 (map (λ unit. unit.items) units.now.items)) ≡ map (λ unit. unit.items) units.now.items) }
{
    let mut text = Vec::with_capacity(alloc, joined_len(units).ok_or(AllocError)?)?;
    for unit in units {
        text.extend_from_slice(&[0, 0, 0, 1])?;
        text.extend_from_slice(unit.as_slice())?;
    }
    Ok(text)
}

/// How long the joined text is; None where that is more than memory can hold.
fn joined_len(units: &Vec<Vec<u8>>) -> Option<usize>
    ensures { IfSome result (λ total. total ≡ sum_by (λ unit. 4 + vec_len unit) units.now.items) }
{
    let mut total: usize = 0;
    for unit in units {
        total = total.checked_add(4)?.checked_add(unit.len())?;
    }
    Some(total)
}
