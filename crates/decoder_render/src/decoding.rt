// A picture from its units: all slices are read, then constructed, then the picture is filtered.
ghost use Rattle.std.specs.Prelude.{◌≡◌, ◌-◌, ◌≤◌, ◌<◌, ◌^◌, ℕ, [], min, length};
ghost use Rattle.cb_types.specs.AcceptedInfo.{IsAcceptedBySome};
ghost use Rattle.cb_types.specs.SizeMbs as sizes;
ghost use Rattle.cb_types.specs.SizeMbs.{IsWithinLimits};
ghost use Rattle.deblock.specs.Marks.{IsMark};
ghost use Rattle.motion.specs.Border.{mark_at};
ghost use Rattle.recon.specs.Laws.{AreWhole};
ghost use Rattle.recon.specs.References.{pictures_of};
ghost use Rattle.vd_plane.specs.Picture.{HasSize};
ghost use Rattle.decoder_render.specs.Constructed.{covering};
ghost use Rattle.decoder_render.specs.Coverage.{given};
ghost use Rattle.decoder_render.specs.Outcomes.{IsDecoded, IsOutcome};
ghost use Rattle.decoder_render.specs.Submission.{bytes_of};
ghost use Rattle.decoder_render.specs.declared.outcome.Outcome.TheVariants.{Bitstream, Incomplete, Ok};

use super::construction::construct_slices;
use super::halves::construct_at_once;
use super::outcome::Outcome;
use super::parsing::{Parsed, ParsedSlice, parse_slices};
use cb_types::{Macroblock, MbMark, PictureInfo, SizeMbs};
use deblock::filter;
use recon::Refs;
use std::thread::Threads;
use vd_outside::Gate;
use vd_plane::{Picture, Tile, place_tiles};

/// Decodes the payloads of a picture's units, none of a spoiled one, to its samples. The slices, macroblocks,
/// marks and tiles are memory: what stood in them says nothing.
pub fn decode_units(
    info: &PictureInfo,
    refs: &Refs,
    size: SizeMbs,
    units: &[Option<Vec<u8>>],
    slices: &mut [ParsedSlice],
    macroblocks: &mut [Macroblock],
    marks: &mut [MbMark],
    tiles: &mut [Tile],
    picture: &mut Picture,
) -> Outcome
    requires info { IsAcceptedBySome info.now }
    requires size { IsWithinLimits size }
    requires few { length units.now < 2 ^ 32 }
    requires slices { length slices.old ≡ min (length units.now) (sizes.macroblocks size) }
    requires macroblocks { length macroblocks.old ≡ sizes.macroblocks size }
    requires marks { length marks.old ≡ sizes.macroblocks size }
    requires tiles { length tiles.old ≡ sizes.macroblocks size }
    requires whole { AreWhole marks.old tiles.old (sizes.macroblocks size) }
    requires picture { HasSize picture.old size }
    ensures outcome { IsOutcome (given info.now size (pictures_of refs.now)) (bytes_of units.now) result picture.new }
    ensures whole { AreWhole marks.new tiles.new (sizes.macroblocks size) }
    ensures picture { HasSize picture.new size }
{
    let parsed = parse_slices(info, size, units, slices, macroblocks);
    let fault = construct_slices(
        info,
        refs,
        size,
        slices,
        parsed.slices,
        macroblocks,
        marks,
        tiles,
    );
    match fault {
        Some(slice) => Outcome::Bitstream {
            slice: slice as u32,
        },
        None => finished(info, size, units.len(), parsed, marks, tiles, picture),
    }
}

/// The same, where the slices are constructed at once: those of both halves beside each other, each once it has passed
/// its gate, if it has one.
pub fn decode_units_at_once<R: Threads + Sync, G: Gate + Send>(
    rt: &R,
    info: &PictureInfo,
    refs: &Refs,
    size: SizeMbs,
    units: &[Option<Vec<u8>>],
    slices: &mut [ParsedSlice],
    macroblocks: &mut [Macroblock],
    gates: &mut [G],
    marks: &mut [MbMark],
    tiles: &mut [Tile],
    picture: &mut Picture,
) -> Outcome
    requires info { IsAcceptedBySome info.now }
    requires size { IsWithinLimits size }
    requires few { length units.now < 2 ^ 32 }
    requires slices { length slices.old ≡ min (length units.now) (sizes.macroblocks size) }
    requires macroblocks { length macroblocks.old ≡ sizes.macroblocks size }
    requires marks { length marks.old ≡ sizes.macroblocks size }
    requires tiles { length tiles.old ≡ sizes.macroblocks size }
    requires whole { AreWhole marks.old tiles.old (sizes.macroblocks size) }
    requires picture { HasSize picture.old size }
    ensures outcome { IsOutcome (given info.now size (pictures_of refs.now)) (bytes_of units.now) result picture.new }
    ensures whole { AreWhole marks.new tiles.new (sizes.macroblocks size) }
    ensures picture { HasSize picture.new size }
{
    let parsed = parse_slices(info, size, units, slices, macroblocks);
    let fault = construct_at_once(
        rt,
        info,
        refs,
        size,
        slices,
        parsed.slices,
        macroblocks,
        gates,
        marks,
        tiles,
    );
    match fault {
        Some(slice) => Outcome::Bitstream {
            slice: slice as u32,
        },
        None => finished(info, size, units.len(), parsed, marks, tiles, picture),
    }
}

// What a picture of so many units comes to whose first slices are read and constructed.
fn finished(
    info: &PictureInfo,
    size: SizeMbs,
    units: usize,
    parsed: Parsed,
    marks: &[MbMark],
    tiles: &[Tile],
    picture: &mut Picture,
) -> Outcome
    requires info { IsAcceptedBySome info.now }
    requires size { IsWithinLimits size }
    requires few { units < 2 ^ 32 }
    requires slices { parsed.slices ≤ units }
    requires covered { parsed.covered ≤ sizes.macroblocks size }
    requires marks { length marks.now ≡ sizes.macroblocks size }
    requires each { (number : ℕ) → number < parsed.covered → IsMark (mark_at marks.now number) }
    requires tiles { length tiles.now ≡ sizes.macroblocks size }
    requires picture { HasSize picture.old size }
    ensures unread { parsed.slices < units → result ≡ Bitstream parsed.slices }
    ensures lacking { parsed.slices ≡ units → parsed.covered < sizes.macroblocks size → result ≡ Incomplete (sizes.macroblocks size - parsed.covered) }
    ensures whole { parsed.slices ≡ units → parsed.covered ≡ sizes.macroblocks size → result ≡ Ok }
    ensures decoded { parsed.slices ≡ units → parsed.covered ≡ sizes.macroblocks size → IsDecoded (given info.now size []) (covering marks.now tiles.now) picture.new }
    ensures picture { HasSize picture.new size }
{
    if parsed.slices < units {
        return Outcome::Bitstream {
            slice: parsed.slices as u32,
        };
    }
    let missing = size.macroblocks() - parsed.covered;
    if missing > 0 {
        return Outcome::Incomplete {
            macroblocks: missing,
        };
    }
    place_tiles(tiles, size.width, picture);
    filter(info, size, marks, picture);
    Outcome::Ok
}
