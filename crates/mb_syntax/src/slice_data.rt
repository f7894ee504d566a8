// The macroblocks of a slice, from their bits (H.264, 7.3.4).
ghost use Rattle.std.specs.Prelude.{◌≡◌, ◌+◌, ◌-◌, ◌<◌, ◌≤◌, ◌^◌, IfNone, IfSome, IsTrue, List, MatchOption, OnSome, ◌++◌, drop, false, length, replicate, take};
ghost use Rattle.bit_io.specs.Trailing.{EndsHere, HasMoreData};
ghost use Rattle.cb_types.specs.SizeMbs.{IsWithinLimits, macroblocks};
ghost use Rattle.cb_types.specs.Slices.{active_entries};
ghost use Rattle.cb_types.specs.declared.macroblock.Macroblock.{Macroblock};
ghost use Rattle.mb_syntax.specs.Around.{AreColumns};
ghost use Rattle.mb_syntax.specs.MacroblockLayer.{place_before};
ghost use Rattle.mb_syntax.specs.Progress.{IsAt, IsBehindAll, IsBehindRun, IsReadOn, NoneIs};
ghost use Rattle.mb_syntax.specs.SliceData.{AreSliceData, SoFar, skipped, start};

use super::counts::{Columns, Counts};
use super::macroblock::read_next;
use super::slice::Slice;
use bit_io::BitReader;
use cb_types::{Header, Macroblock, PictureInfo, SizeMbs};

/// Reads the macroblocks of a slice with this header from what is left of its payload, to the trailing bits.
/// They are put into the picture's macroblocks from `first_mb` on, and their number is given. None exactly
/// where what is left isn't some macroblocks and the trailing bits; then nothing is consumed, and the
/// macroblocks from `first_mb` on are unspecified. Those before it stay in either case.
pub fn read_slice_data(
    reader: &mut BitReader,
    info: &PictureInfo,
    header: &Header,
    size: SizeMbs,
    into: &mut [Macroblock],
) -> Option<u32>
    requires size { IsWithinLimits size }
    requires active { active_entries info.now header.now ≤ 16 }
    requires room { macroblocks size ≤ length into.old }
    ensures reads { MatchOption result ((mbs : List Macroblock) → AreSliceData info.now header.now size reader.old mbs → ⊥)
        (λ count. AreSliceData info.now header.now size reader.old (take count (drop header.now.first_mb into.new))) }
    ensures within { IfSome result (λ count. header.now.first_mb + count ≤ macroblocks size) }
    ensures before { take header.now.first_mb into.new ≡ take header.now.first_mb into.old }
    ensures behind { IfSome result (λ count. drop (header.now.first_mb + count) into.new ≡ drop (header.now.first_mb + count) into.old) }
    ensures left { OnSome result (EndsHere reader.new) }
    ensures none { IfNone result (reader.new ≡ reader.old) }
{
    let slice = Slice::new(info, header, size);
    if slice.left == 0 {
        return None;
    }
    let mut ahead = reader.fork();
    let count = read_all(&mut ahead, &slice, &mut into[slice.first as usize..])?;
    if count == 0 || !ahead.ends_here() {
        return None;
    }
    *reader = ahead;
    Some(count)
}

// Reads macroblocks while more data stands, and gives their number.
fn read_all(reader: &mut BitReader, slice: &Slice, into: &mut [Macroblock]) -> Option<u32>
    requires active { 1 ≤ slice.now.active }
    requires few { slice.now.active ≤ 16 }
    requires some { 1 ≤ slice.now.width }
    requires narrow { slice.now.width ≤ 256 }
    requires fits { slice.now.first + slice.now.left < 2 ^ 31 }
    requires room { slice.now.left ≤ length into.old }
    ensures reads { MatchOption result (NoneIs slice.now (start (place_before reader.old)) reader.old)
        (λ count. IsBehindAll slice.now (start (place_before reader.old)) reader.old (take count into.new) reader.new) }
    ensures behind { IfSome result (λ count. drop count into.new ≡ drop count into.old) }
    ensures within { IfSome result (λ count. count ≤ slice.now.left) }
{
    let mut columns = Columns::new();
    let mut count = 0;
    while reader.more_data() {
        count = read_step(reader, slice, &mut columns, count, into)?;
    }
    Some(count)
}

// Reads a run of skipped macroblocks in a P slice, and the macroblock behind it, if more data stands there. Gives
// how many macroblocks are read then.
fn read_step(
    reader: &mut BitReader,
    slice: &Slice,
    columns: &mut Columns,
    count: u32,
    into: &mut [Macroblock],
) -> Option<u32>
    requires active { 1 ≤ slice.now.active }
    requires few { slice.now.active ≤ 16 }
    requires some { 1 ≤ slice.now.width }
    requires narrow { slice.now.width ≤ 256 }
    requires fits { slice.now.first + slice.now.left < 2 ^ 31 }
    requires room { slice.now.left ≤ length into.old }
    requires within { count ≤ slice.now.left }
    requires more { HasMoreData reader.old }
    ensures reads { (at : SoFar) → at.run ≡ 0 → IsAt slice.now at.place at.before reader.old columns.old count →
        MatchOption result (NoneIs slice.now at reader.old) (λ next. IsReadOn slice.now at reader.old (drop count (take next into.new)) reader.new columns.new next) }
    ensures shorter { (before : List Macroblock) → length before ≡ count → AreColumns slice.now before columns.old → OnSome result (length reader.new < length reader.old) }
    ensures before { IfSome result (λ next. take count into.new ≡ take count into.old) }
    ensures behind { IfSome result (λ next. drop next into.new ≡ drop next into.old) }
    ensures next { IfSome result (λ next. (count ≤ next) × (next ≤ slice.now.left)) }
{
    let next = read_run(reader, slice, columns, count, into)?;
    if !reader.more_data() {
        return Some(next);
    }
    if next == slice.left {
        return None;
    }
    read_next(reader, slice, columns, next, &mut into[next as usize])?;
    Some(next + 1)
}

// Reads mb_skip_run in a P slice, and puts its macroblocks behind so many others. Gives how many there are then.
fn read_run(
    reader: &mut BitReader,
    slice: &Slice,
    columns: &mut Columns,
    count: u32,
    into: &mut [Macroblock],
) -> Option<u32>
    requires some { 1 ≤ slice.now.width }
    requires narrow { slice.now.width ≤ 256 }
    requires fits { slice.now.first + slice.now.left < 2 ^ 31 }
    requires room { slice.now.left ≤ length into.old }
    requires within { count ≤ slice.now.left }
    requires more { HasMoreData reader.old }
    ensures reads { (at : SoFar) → at.run ≡ 0 → IsAt slice.now at.place at.before reader.old columns.old count →
        MatchOption result (NoneIs slice.now at reader.old) (λ next. IsBehindRun slice.now at reader.old (replicate (next - count) skipped) reader.new columns.new next) }
    ensures into { IfSome result (λ next. take next into.new ≡ take count into.old ++ replicate (next - count) skipped) }
    ensures behind { IfSome result (λ next. drop next into.new ≡ drop next into.old) }
    ensures next { IfSome result (λ next. (count ≤ next) × (next ≤ slice.now.left)) }
    ensures still { slice.now.is_p ≡ false → reader.new ≡ reader.old }
    ensures shorter { IsTrue slice.now.is_p → OnSome result (length reader.new < length reader.old) }
{
    if !slice.is_p {
        return Some(count);
    }
    let run = reader.read_ue()?;
    if run > slice.left - count {
        return None;
    }
    skip(slice, columns, count, count + run, into);
    Some(count + run)
}

// Puts skipped macroblocks to the places from the first to the one before the end.
fn skip(slice: &Slice, columns: &mut Columns, first: u32, end: u32, into: &mut [Macroblock])
    requires some { 1 ≤ slice.now.width }
    requires narrow { slice.now.width ≤ 256 }
    requires order { first ≤ end }
    requires room { end ≤ length into.old }
    requires fits { slice.now.first + end < 2 ^ 31 }
    ensures into { take end into.new ≡ take first into.old ++ replicate (end - first) skipped }
    ensures behind { drop end into.new ≡ drop end into.old }
    ensures columns { (before : List Macroblock) → length before ≡ first → AreColumns slice.now before columns.old →
        AreColumns slice.now (before ++ replicate (end - first) skipped) columns.new }
{
    for k in first..end {
        into[k as usize] = Macroblock::SKIP;
        columns.keep(slice, k, Counts::NONE);
    }
}
