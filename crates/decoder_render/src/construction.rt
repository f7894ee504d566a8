// The constructed samples of a picture's slices.
ghost use Rattle.std.specs.Prelude.{◌≡◌, ◌+◌, ◌≤◌, ◌<◌, ℕ, List, drop, take, MatchBool, MatchOption, IfNone, IfSome, Option, length};
ghost use Rattle.cb_types.specs.AcceptedInfo.{IsAcceptedBySome};
ghost use Rattle.cb_types.specs.SizeMbs as sizes;
ghost use Rattle.cb_types.specs.SizeMbs.{IsWithinLimits};
ghost use Rattle.deblock.specs.Marks.{IsMark};
ghost use Rattle.motion.specs.Border.{mark_at};
ghost use Rattle.recon.specs.Conditions.{IsSlice};
ghost use Rattle.recon.specs.Laws.{AreWhole};
ghost use Rattle.recon.specs.Rebuilt.{AreRebuilt, StopsWithin};
ghost use Rattle.recon.specs.References.{pictures_of};
ghost use Rattle.recon.specs.Slice.{slice_of};
ghost use Rattle.decoder_render.specs.Constructed.{IsConstructed};
ghost use Rattle.decoder_render.specs.Coverage.{AreAccepted, IsRefused, given};
ghost use Rattle.decoder_render.specs.Parsed.{AreParsed, covered_by, start_of};
ghost use Rattle.decoder_render.specs.Submission.{payload_at};

use super::parsing::ParsedSlice;
use cb_types::{Macroblock, MbMark, PictureInfo, SizeMbs};
use recon::{Refs, rebuild};
use vd_plane::Tile;

/// Constructs the marks and tiles of the first so many slices, one after the other, each at its own
/// macroblocks. Gives the number of the first that can't be constructed.
pub fn construct_slices(
    info: &PictureInfo,
    refs: &Refs,
    size: SizeMbs,
    slices: &[ParsedSlice],
    count: usize,
    macroblocks: &[Macroblock],
    marks: &mut [MbMark],
    into: &mut [Tile],
) -> Option<usize>
    requires info { IsAcceptedBySome info.now }
    requires size { IsWithinLimits size }
    requires slices { count ≤ length slices.now }
    requires parsed { (units : List (Option (List ℕ))) × AreParsed info.now size units slices.now macroblocks.now count }
    requires macroblocks { length macroblocks.now ≡ sizes.macroblocks size }
    requires marks { length marks.old ≡ sizes.macroblocks size }
    requires tiles { length into.old ≡ sizes.macroblocks size }
    requires whole { AreWhole marks.old into.old (sizes.macroblocks size) }
    ensures accepted { (units : List (Option (List ℕ))) → AreParsed info.now size units slices.now macroblocks.now count →
        MatchOption result (AreAccepted (given info.now size (pictures_of refs.now)) units count (covered_by slices.now marks.new into.new count))
        (λ number. AreAccepted (given info.now size (pictures_of refs.now)) units number (covered_by slices.now marks.new into.new number)
        × IsRefused (given info.now size (pictures_of refs.now)) (covered_by slices.now marks.new into.new number) (payload_at units number)) }
    ensures marks { IfNone result ((number : ℕ) → number < start_of slices.now count → IsMark (mark_at marks.new number)) }
    ensures number { IfSome result (λ number. number < count) }
    ensures whole { AreWhole marks.new into.new (sizes.macroblocks size) }
{
    // What is read here is known to be there: sixteen entries.
    let _reference = info.references[0];
    for number in 0..count {
        if !construct_at(info, refs, size, &slices[number], macroblocks, marks, into) {
            return Some(number);
        }
    }
    None
}

// Constructs one slice at its own macroblocks among those of the picture. False where it can't be constructed.
fn construct_at(
    info: &PictureInfo,
    refs: &Refs,
    size: SizeMbs,
    slice: &ParsedSlice,
    macroblocks: &[Macroblock],
    marks: &mut [MbMark],
    into: &mut [Tile],
) -> bool
    requires slice { IsSlice (slice_of info.now slice.now.header slice.now.list.entries (pictures_of refs.now) size (take slice.now.count (drop slice.now.header.first_mb macroblocks.now))) slice.now.count }
    requires macroblocks { slice.now.header.first_mb + slice.now.count ≤ length macroblocks.now }
    requires marks { slice.now.header.first_mb + slice.now.count ≤ length marks.old }
    requires tiles { slice.now.header.first_mb + slice.now.count ≤ length into.old }
    ensures { IsConstructed (slice_of info.now slice.now.header slice.now.list.entries (pictures_of refs.now) size (take slice.now.count (drop slice.now.header.first_mb macroblocks.now)))
        slice.now.header.first_mb slice.now.count marks.old marks.new into.old into.new result }
{
    let first = slice.header.first_mb as usize;
    let end = first + slice.count as usize;
    construct_slice(
        info,
        refs,
        size,
        slice,
        &macroblocks[first..end],
        &mut marks[first..end],
        &mut into[first..end],
    )
}

/// Constructs the marks and tiles of one slice from its macroblocks. False where it can't be constructed.
pub fn construct_slice(
    info: &PictureInfo,
    refs: &Refs,
    size: SizeMbs,
    slice: &ParsedSlice,
    macroblocks: &[Macroblock],
    marks: &mut [MbMark],
    into: &mut [Tile],
) -> bool
    requires slice { IsSlice (slice_of info.now slice.now.header slice.now.list.entries (pictures_of refs.now) size macroblocks.now) slice.now.count }
    requires macroblocks { slice.now.count ≤ length macroblocks.now }
    requires marks { slice.now.count ≤ length marks.old }
    requires tiles { slice.now.count ≤ length into.old }
    ensures rebuilt { let here = slice_of info.now slice.now.header slice.now.list.entries (pictures_of refs.now) size macroblocks.now in
        MatchBool result (AreRebuilt here marks.new into.new slice.now.count) (StopsWithin here marks.new into.new slice.now.count) }
    ensures whole { AreWhole marks.old into.old slice.now.count → AreWhole marks.new into.new slice.now.count }
{
    rebuild(
        info,
        &slice.header,
        &slice.list,
        refs,
        size,
        macroblocks,
        slice.count,
        marks,
        into,
    )
}
