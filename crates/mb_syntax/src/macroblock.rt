// One macroblock that isn't skipped, from its bits (H.264, 7.3.5).
ghost use Rattle.std.specs.Prelude.{◌≡◌, ◌+◌, ◌<◌, ◌≤◌, ◌^◌, List, [], ◌∷◌, ◌++◌, IfSome, OnSome, length, option_map};
ghost use Rattle.cavlc.specs.Parts.{Gives};
ghost use Rattle.cb_types.specs.declared.macroblock.Macroblock.{Macroblock};
ghost use Rattle.mb_syntax.specs.Around.{AreColumns, IsAround, IsCountOf};
ghost use Rattle.mb_syntax.specs.Kinds.{has_qp_delta, is_pcm};
ghost use Rattle.mb_syntax.specs.MacroblockLayer.{IsCoded, IsQpDelta, mb_bits, place_before, qp_delta_bits};

use super::counts::{Around, Columns, Counts};
use super::kinds::read_kind;
use super::residual::{is_intra16, pattern_of, read_residual};
use super::slice::Slice;
use bit_io::BitReader;
use cb_types::{Macroblock, MbKind};

/// Reads the macroblock that is so many behind the slice's first, by the counts of those before it, and keeps its counts.
/// None where no macroblock's bits begin what is left; the macroblock, the reader and the counts are unspecified then.
pub fn read_next(
    reader: &mut BitReader,
    slice: &Slice,
    columns: &mut Columns,
    behind: u32,
    mb: &mut Macroblock,
) -> Option<()>
    requires active { 1 ≤ slice.now.active }
    requires few { slice.now.active ≤ 16 }
    requires some { 1 ≤ slice.now.width }
    requires narrow { slice.now.width ≤ 256 }
    requires fits { slice.now.first + behind < 2 ^ 32 }
    ensures reads { (before : List Macroblock) → length before ≡ behind → AreColumns slice.now before columns.old →
        Gives (IsCoded slice.now before) (mb_bits slice.now (place_before reader.old) before) reader.old (option_map (λ done. mb.new) result) reader.new }
    ensures columns { OnSome result ((before : List Macroblock) → length before ≡ behind → AreColumns slice.now before columns.old → AreColumns slice.now (before ++ mb.new ∷ []) columns.new) }
{
    let around = columns.around(slice, behind);
    let counts = read_macroblock(reader, slice, &around, mb)?;
    columns.keep(slice, behind, counts);
    Some(())
}

// Reads macroblock_layer and gives how many levels each block has. None where no macroblock's bits begin what is left;
// the macroblock and the reader are unspecified then.
fn read_macroblock(
    reader: &mut BitReader,
    slice: &Slice,
    around: &Around,
    mb: &mut Macroblock,
) -> Option<Counts>
    requires active { 1 ≤ slice.now.active }
    requires few { slice.now.active ≤ 16 }
    ensures reads { (before : List Macroblock) → IsAround slice.now before around.now →
        Gives (IsCoded slice.now before) (mb_bits slice.now (place_before reader.old) before) reader.old (option_map (λ counts. mb.new) result) reader.new }
    ensures counts { IfSome result (λ counts. IsCountOf counts mb.new) }
{
    mb.kind = read_kind(reader, slice)?;
    mb.qp_delta = read_qp_delta(reader, &mb.kind)?;
    let counts = read_residual(reader, around, mb)?;
    if is_pcm(&mb.kind) {
        return Some(Counts::PCM);
    }
    Some(counts)
}

pub fn is_pcm(kind: &MbKind) -> bool
    ensures { result ≡ is_pcm kind.now }
{
    matches!(kind, MbKind::Pcm(_))
}

fn read_qp_delta(reader: &mut BitReader, kind: &MbKind) -> Option<i32>
    ensures { Gives (IsQpDelta kind.now) (qp_delta_bits kind.now) reader.old result reader.new }
{
    if !has_qp_delta(kind) {
        return Some(0);
    }
    let delta = reader.read_se()?;
    if delta < -26 || delta > 25 {
        return None;
    }
    Some(delta)
}

pub fn has_qp_delta(kind: &MbKind) -> bool
    ensures { result ≡ has_qp_delta kind.now }
{
    is_intra16(kind) || pattern_of(kind) > 0
}
