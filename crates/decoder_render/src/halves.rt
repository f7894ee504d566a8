// The slices of a picture, constructed at once. Their list is halved again and again, and both halves are
// constructed beside each other, each in its own part of the marks and tiles.
ghost use Rattle.std.specs.Prelude.{◌≡◌, ◌+◌, ◌-◌, ◌≤◌, ◌<◌, ◌^◌, ℕ, List, MatchOption, IfNone, IfSome, Option, length};
ghost use Rattle.std.specs.Thread.{IsSend, IsSync};
ghost use Rattle.cb_types.specs.AcceptedInfo.{IsAcceptedBySome};
ghost use Rattle.cb_types.specs.SizeMbs as sizes;
ghost use Rattle.cb_types.specs.SizeMbs.{IsWithinLimits};
ghost use Rattle.deblock.specs.Marks.{IsMark};
ghost use Rattle.motion.specs.Border.{mark_at};
ghost use Rattle.recon.specs.Laws.{AreWhole};
ghost use Rattle.recon.specs.References.{pictures_of};
ghost use Rattle.decoder_render.specs.Constructed.{IsConstructed};
ghost use Rattle.decoder_render.specs.Coverage.{AreAccepted, IsRefused, given};
ghost use Rattle.decoder_render.specs.Halves.{CanBuild, IsFirstStop, IsSliceAt, numbered, part_from};
ghost use Rattle.decoder_render.specs.Parsed.{AreParsed, covered_by, slice_at, start_of};
ghost use Rattle.decoder_render.specs.Submission.{payload_at};

use super::construction::construct_slice;
use super::parsing::ParsedSlice;
use cb_types::{Macroblock, MbMark, PictureInfo, SizeMbs};
use recon::Refs;
use std::thread::{Threads, join_mut};
use vd_outside::Gate;
use vd_plane::Tile;

// Fewer macroblocks than these are constructed by one thread, unless a gate stands in their way.
const LEAST: usize = 512;

// What the construction of a picture's slices goes by.
#[derive(Clone, Copy)]
struct Source<'a> {
    info: &'a PictureInfo,
    refs: &'a Refs,
    size: SizeMbs,
    slices: &'a [ParsedSlice],
    macroblocks: &'a [Macroblock],
}

/// Constructs the marks and tiles of the first so many slices, those of both halves beside each other, each at its
/// own macroblocks. Each slice that has a gate passes it first. Gives the number of the first that can't be
/// constructed, whichever half finds it.
pub fn construct_at_once<R: Threads + Sync, G: Gate + Send>(
    rt: &R,
    info: &PictureInfo,
    refs: &Refs,
    size: SizeMbs,
    slices: &[ParsedSlice],
    count: usize,
    macroblocks: &[Macroblock],
    gates: &mut [G],
    marks: &mut [MbMark],
    into: &mut [Tile],
) -> Option<usize>
    requires info { IsAcceptedBySome info.now }
    requires size { IsWithinLimits size }
    requires slices { count ≤ length slices.now }
    requires few { count < 2 ^ 32 }
    requires parsed { (units : List (Option (List ℕ))) × AreParsed info.now size units slices.now macroblocks.now count }
    requires macroblocks { length macroblocks.now ≡ sizes.macroblocks size }
    requires marks { length marks.old ≡ sizes.macroblocks size }
    requires tiles { length into.old ≡ sizes.macroblocks size }
    requires whole { AreWhole marks.old into.old (sizes.macroblocks size) }
    ensures accepted { (units : List (Option (List ℕ))) → AreParsed info.now size units slices.now macroblocks.now count →
        MatchOption result (AreAccepted (given info.now size (pictures_of refs.now)) units count (covered_by slices.now marks.new into.new count))
        (λ number. AreAccepted (given info.now size (pictures_of refs.now)) units number (covered_by slices.now marks.new into.new number)
        × IsRefused (given info.now size (pictures_of refs.now)) (covered_by slices.now marks.new into.new number) (payload_at units number)) }
    ensures marks { IfNone result ((number : ℕ) → number < start_of slices.now count → IsMark (mark_at marks.new number)) }
    ensures number { IfSome result (λ number. number < count) }
    ensures whole { AreWhole marks.new into.new (sizes.macroblocks size) }
{
    // What is read here is known to be there: sixteen entries.
    let _reference = info.references[0];
    if count == 0 {
        return None;
    }
    let source = Source {
        info,
        refs,
        size,
        slices,
        macroblocks,
    };
    construct_part(rt, source, 0, count, gates, marks, into)
}

// Constructs the slices from one number up to another, in the part of the marks and tiles that begins with the first
// of them: by halves, where there is more than one and they are many, or where one is held by a gate.
#[cycle(halves)]
fn construct_part<R: Threads + Sync, G: Gate + Send>(
    rt: &R,
    source: Source<'_>,
    from: usize,
    to: usize,
    gates: &mut [G],
    marks: &mut [MbMark],
    into: &mut [Tile],
) -> Option<usize>
    requires { CanBuild source from to (part_from (start_of source.slices.now from) marks.old into.old) }
    ensures built { IsFirstStop source.entry (part_from (start_of source.entry.slices.now from) marks.new into.new) from to result }
    ensures whole { AreWhole marks.new into.new (length marks.new) }
{
    let start = source.slices[from].header.first_mb as usize;
    let last = &source.slices[to - 1];
    let count = last.header.first_mb as usize + last.count as usize - start;
    if to - from == 1 || gates.is_empty() && count < LEAST {
        return construct_in_turn(source, from, to, gates, marks, into);
    }
    let middle = middle_of(source.slices, from, to, start + count / 2);
    let here = source.slices[middle].header.first_mb as usize - start;
    let (low_gates, high_gates) = gates.split_at_mut(gates.len().min(middle - from));
    let (low_marks, high_marks) = marks.split_at_mut(here);
    let (low_tiles, high_tiles) = into.split_at_mut(here);
    let (front, back) = both_halves(
        rt, source, from, middle, to, low_gates, low_marks, low_tiles, high_gates, high_marks,
        high_tiles,
    );
    front.or(back)
}

// Constructs both halves beside each other. It is apart from `construct_part`, so that what the closures require is
// what it is given.
#[cycle(halves)]
fn both_halves<R: Threads + Sync, G: Gate + Send>(
    rt: &R,
    source: Source<'_>,
    from: usize,
    middle: usize,
    to: usize,
    low_gates: &mut [G],
    low_marks: &mut [MbMark],
    low_tiles: &mut [Tile],
    high_gates: &mut [G],
    high_marks: &mut [MbMark],
    high_tiles: &mut [Tile],
) -> (Option<usize>, Option<usize>)
    requires front { CanBuild source from middle (part_from (start_of source.slices.now from) low_marks.old low_tiles.old) }
    requires back { CanBuild source middle to (part_from (start_of source.slices.now middle) high_marks.old high_tiles.old) }
    ensures front { IsFirstStop source.entry (part_from (start_of source.entry.slices.now from) low_marks.new low_tiles.new) from middle result.0 }
    ensures front_whole { AreWhole low_marks.new low_tiles.new (length low_marks.new) }
    ensures back { IsFirstStop source.entry (part_from (start_of source.entry.slices.now middle) high_marks.new high_tiles.new) middle to result.1 }
    ensures back_whole { AreWhole high_marks.new high_tiles.new (length high_marks.new) }
{
    let mut front = || -> Option<usize>
        requires { IsSync R.row × IsSend G.row × CanBuild source from middle (part_from (start_of source.slices.now from) low_marks.now low_tiles.now) }
        ensures { IsFirstStop source.entry (part_from (start_of source.entry.slices.now from) low_marks.exit.now low_tiles.exit.now) from middle result × AreWhole low_marks.exit.now low_tiles.exit.now (length low_marks.exit.now) }
    { construct_part(rt, source, from, middle, low_gates, low_marks, low_tiles) };
    let mut back = || -> Option<usize>
        requires { IsSync R.row × IsSend G.row × CanBuild source middle to (part_from (start_of source.slices.now middle) high_marks.now high_tiles.now) }
        ensures { IsFirstStop source.entry (part_from (start_of source.entry.slices.now middle) high_marks.exit.now high_tiles.exit.now) middle to result × AreWhole high_marks.exit.now high_tiles.exit.now (length high_marks.exit.now) }
    { construct_part(rt, source, middle, to, high_gates, high_marks, high_tiles) };
    join_mut(rt, &mut front, &mut back)
}

// The first of the slices between one number and another that begins at this macroblock or behind it, or the last
// of them.
fn middle_of(slices: &[ParsedSlice], from: usize, to: usize, half: usize) -> usize
    requires some { from + 2 ≤ to }
    requires inside { to ≤ length slices.now }
    ensures some { from < result }
    ensures less { result < to }
{
    let last = to - 1;
    for number in from + 1..last {
        if half <= slices[number].header.first_mb as usize {
            return number;
        }
    }
    last
}

// Constructs the slices from one number up to another, one after the other, in the part of the marks and tiles that
// begins with the first of them. Each passes its gate first.
fn construct_in_turn<G: Gate>(
    source: Source<'_>,
    from: usize,
    to: usize,
    gates: &mut [G],
    marks: &mut [MbMark],
    into: &mut [Tile],
) -> Option<usize>
    requires { CanBuild source from to (part_from (start_of source.slices.now from) marks.old into.old) }
    ensures built { IsFirstStop source.entry (part_from (start_of source.entry.slices.now from) marks.new into.new) from to result }
    ensures whole { AreWhole marks.new into.new (length marks.new) }
{
    for number in from..to {
        if number - from < gates.len() {
            gates[number - from].pass(number as u32);
        }
        if !construct_among(source, from, number, marks, into) {
            return Some(number);
        }
    }
    None
}

// Constructs the slice of this number in the part of the marks and tiles that begins with the slice of the first
// number. False where it can't be constructed.
fn construct_among(
    source: Source<'_>,
    from: usize,
    number: usize,
    marks: &mut [MbMark],
    into: &mut [Tile],
) -> bool
    requires number { from ≤ number }
    requires slices { number < length source.slices.now }
    requires first { IsSliceAt source from }
    requires slice { IsSliceAt source number }
    requires marks { start_of source.slices.now number + (slice_at source.slices.now number).count ≤ start_of source.slices.now from + length marks.old }
    requires tiles { length into.old ≡ length marks.old }
    ensures { IsConstructed (numbered source.entry number) (start_of source.entry.slices.now number - start_of source.entry.slices.now from) (slice_at source.entry.slices.now number).count marks.old marks.new into.old into.new result }
{
    let slice = &source.slices[number];
    let start = source.slices[from].header.first_mb as usize;
    let first = slice.header.first_mb as usize;
    let end = first + slice.count as usize;
    construct_slice(
        source.info,
        source.refs,
        source.size,
        slice,
        &source.macroblocks[first..end],
        &mut marks[first - start..end - start],
        &mut into[first - start..end - start],
    )
}
