// The units of a submission (H.264, Annex B), and their payloads.
ghost use Rattle.std.specs.Prelude.{◌≡◌, ◌<◌, ◌^◌, ◌++◌, ℕ, IsFalse, IsTrue, length, IfOk, MatchOption, None};
ghost use Rattle.nal_units.specs.Settled.{broken_in, unit_in};
ghost use Rattle.nal_units.specs.Units.{Units};
ghost use Rattle.bit_io.specs.Payload.{IsAllowedBefore, IsFirstForbidden, payload};
ghost use Rattle.decoder_render.specs.Submission.{ArePayloads, IsPayload, bytes_of, items_of};

use bit_io::{UnescapeFault, unescape};
use nal_units::{Finder, Found};
use std::alloc::{AllocError, Global};

// Each unit of a text from its first place up to the place after its last byte, and the place from which on
// the text isn't a byte stream.
#[derive(Drop)]
struct Places {
    units: Vec<(u64, u64)>,
    broken: Option<u64>,
}

/// The payloads of a text's units up to its broken place, in their order. A unit with a forbidden byte has
/// none, nor has the last one before a broken place.
pub fn payloads(alloc: Global, text: &[u8]) -> Result<Vec<Option<Vec<u8>>>, AllocError>
    requires { length text.now < 2 ^ 32 }
    ensures payloads { IfOk result (λ payloads. ArePayloads text.now (bytes_of payloads.items)) }
    ensures few { IfOk result (λ payloads. length payloads.items < 2 ^ 32) }
{
    let places = units_of(alloc, text)?;
    let mut payloads = Vec::with_capacity(alloc, places.units.len())?;
    for number in 0..places.units.len() {
        let payload = payload_in(alloc, text, &places, number)?;
        payloads.push(payload)?;
    }
    Ok(payloads)
}

// The payload of the unit of this number.
fn payload_in(
    alloc: Global,
    text: &[u8],
    places: &Places,
    number: usize,
) -> Result<Option<Vec<u8>>, AllocError>
    requires units { Units text.now places.now.units.items places.now.broken }
    requires inside { number < length places.now.units.items }
    ensures { IfOk result (λ kept. IsPayload text.now places.now.units.items places.now.broken number (items_of kept)) }
{
    let (start, end) = places.units[number];
    let is_whole = places.broken.is_none() || number + 1 < places.units.len();
    payload_of(alloc, &text[start as usize..end as usize], is_whole)
}

// The payload of a unit, none where a byte of it is forbidden or where the text breaks behind it.
fn payload_of(alloc: Global, unit: &[u8], is_whole: bool) -> Result<Option<Vec<u8>>, AllocError>
    ensures spoiled { IsFalse is_whole → IfOk result (λ kept. kept ≡ None) }
    ensures payload { IsTrue is_whole → IfOk result (λ kept. MatchOption kept ((at : ℕ) × IsFirstForbidden unit.now at)
        (λ bytes. (bytes.items ≡ payload unit.now) × IsAllowedBefore unit.now (length unit.now))) }
{
    if !is_whole {
        return Ok(None);
    }
    match unescape(alloc, unit) {
        Ok(payload) => Ok(Some(payload)),
        Err(UnescapeFault::Forbidden { .. }) => Ok(None),
        Err(UnescapeFault::OutOfMemory) => Err(AllocError),
    }
}

// Where the units of a text stand.
fn units_of(alloc: Global, text: &[u8]) -> Result<Places, AllocError>
    requires { length text.now < 2 ^ 32 }
    ensures { IfOk result (λ places. Units text.now places.units.items places.broken) }
{
    let mut units = Vec::new(alloc);
    let mut finder = Finder::new();
    let mut place = 0;
    while place < text.len() {
        let (taken, found) = finder.push_slice(&text[place..]);
        place += taken;
        match found {
            Found::Nothing => {}
            Found::Unit { start, end } => units.push((start, end))?,
            Found::Broken { at } => {
                return Ok(Places {
                    units,
                    broken: Some(at),
                });
            }
        }
    }
    ended(units, finder.finish())
}

fn ended(mut units: Vec<(u64, u64)>, found: Found) -> Result<Places, AllocError>
    ensures units { IfOk result (λ places. places.units.items ≡ units.items ++ unit_in found) }
    ensures broken { IfOk result (λ places. places.broken ≡ broken_in found) }
{
    match found {
        Found::Nothing => Ok(Places {
            units,
            broken: None,
        }),
        Found::Unit { start, end } => {
            units.push((start, end))?;
            Ok(Places {
                units,
                broken: None,
            })
        }
        Found::Broken { at } => Ok(Places {
            units,
            broken: Some(at),
        }),
    }
}
