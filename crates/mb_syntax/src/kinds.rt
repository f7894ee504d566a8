// The kind of a macroblock, up to its coded block pattern (H.264, 7.3.5).

ghost use Rattle.std.specs.Prelude.{◌≤◌};
ghost use Rattle.cavlc.specs.Parts.{Gives};
ghost use Rattle.mb_syntax.specs.Kinds.{intra_type};
ghost use Rattle.mb_syntax.specs.Prediction.{IsKind, IsKindOf, kind_bits, pattern_bits, prediction_bits};
ghost use Rattle.mb_syntax.specs.MacroblockLayer.{place_before};

use super::inter::read_inter;
use super::intra::{read_intra4, read_intra16, read_pcm};
use super::slice::Slice;
use bit_io::BitReader;
use cb_tables::pattern;
use cb_types::MbKind;

/// Reads mb_type and what follows it up to the coded block pattern.
pub fn read_kind(reader: &mut BitReader, slice: &Slice) -> Option<MbKind>
    requires some { 1 ≤ slice.now.active }
    requires few { slice.now.active ≤ 16 }
    ensures { Gives (IsKind slice.now) (kind_bits slice.now (place_before reader.old)) reader.old result reader.new }
{
    let number = reader.read_ue()?;
    if !slice.is_p {
        read_intra(reader, slice, number)
    } else if number >= 5 {
        read_intra(reader, slice, number - 5)
    } else {
        read_inter(reader, slice, number)
    }
}

// Reads what follows mb_type of an intra kind, which has this number in I slices.
fn read_intra(reader: &mut BitReader, slice: &Slice, number: u32) -> Option<MbKind>
    ensures { Gives (IsKindOf slice.now (intra_type slice.now.is_p number)) (prediction_bits slice.now (place_before reader.old)) reader.old result reader.new }
{
    match number {
        0 => read_intra4(reader, slice),
        1..=24 => read_intra16(reader, slice, number),
        25 => read_pcm(reader, slice),
        _ => None,
    }
}

/// Reads coded_block_pattern, me(v).
pub fn read_pattern(reader: &mut BitReader, intra: bool) -> Option<u32>
    ensures { Gives (λ pattern. pattern ≤ 47) (pattern_bits intra) reader.old result reader.new }
{
    let code = reader.read_ue()?;
    if code > 47 {
        return None;
    }
    Some(pattern(code, intra))
}
