// The prediction of inter macroblocks (H.264, 7.3.5.1 and 7.3.5.2).
ghost use Rattle.std.specs.Prelude.{◌≡◌, ◌≤◌, IsTrue};
ghost use Rattle.std.specs.List.{flat_map};
ghost use Rattle.bit_io.specs.Codewords.{ue};
ghost use Rattle.cavlc.specs.Parts.{Gives};
ghost use Rattle.mb_syntax.specs.KindSteps.{AreDeltas, AreSo, AreSubsOf, IsSubKind, deltas_bits, first_subs_bits, parts_bits, subs_bits};
ghost use Rattle.mb_syntax.specs.Kinds as kinds;
ghost use Rattle.mb_syntax.specs.Prediction.{IsFirstSub, IsKindOf, IsPart, IsReference, IsSub, IsVector, prediction_bits, reference_bits, sub_vector_bits, vector_bits};
ghost use Rattle.mb_syntax.specs.MacroblockLayer.{place_before};

use super::kinds::read_pattern;
use super::slice::Slice;
use bit_io::BitReader;
use cb_types::{MbKind, Part, Sub, Vector};

const ZERO: Vector = Vector { x: 0, y: 0 };

/// Reads what follows mb_type 0 to 4 of a P slice.
pub fn read_inter(reader: &mut BitReader, slice: &Slice, number: u32) -> Option<MbKind>
    requires in_p { IsTrue slice.now.is_p }
    requires some { 1 ≤ slice.now.active }
    requires few { slice.now.active ≤ 16 }
    requires number { number ≤ 4 }
    ensures { Gives (IsKindOf slice.now number) (prediction_bits slice.now (place_before reader.old)) reader.old result reader.new }
{
    match number {
        0 => read_whole(reader, slice),
        1 => read_wide(reader, slice),
        2 => read_tall(reader, slice),
        3 => read_four(reader, slice),
        _ => read_four_first(reader, slice),
    }
}

fn read_whole(reader: &mut BitReader, slice: &Slice) -> Option<MbKind>
    requires in_p { IsTrue slice.now.is_p }
    requires some { 1 ≤ slice.now.active }
    requires few { slice.now.active ≤ 16 }
    ensures { Gives (IsKindOf slice.now 0) (prediction_bits slice.now (place_before reader.old)) reader.old result reader.new }
{
    let reference = read_reference(reader, slice)?;
    let delta = read_vector(reader)?;
    let pattern = read_pattern(reader, false)?;
    Some(MbKind::Whole(Part { reference, delta }, pattern))
}

fn read_wide(reader: &mut BitReader, slice: &Slice) -> Option<MbKind>
    requires in_p { IsTrue slice.now.is_p }
    requires some { 1 ≤ slice.now.active }
    requires few { slice.now.active ≤ 16 }
    ensures { Gives (IsKindOf slice.now 1) (prediction_bits slice.now (place_before reader.old)) reader.old result reader.new }
{
    let parts = read_parts(reader, slice)?;
    let pattern = read_pattern(reader, false)?;
    Some(MbKind::Wide(parts, pattern))
}

fn read_tall(reader: &mut BitReader, slice: &Slice) -> Option<MbKind>
    requires in_p { IsTrue slice.now.is_p }
    requires some { 1 ≤ slice.now.active }
    requires few { slice.now.active ≤ 16 }
    ensures { Gives (IsKindOf slice.now 2) (prediction_bits slice.now (place_before reader.old)) reader.old result reader.new }
{
    let parts = read_parts(reader, slice)?;
    let pattern = read_pattern(reader, false)?;
    Some(MbKind::Tall(parts, pattern))
}

fn read_four(reader: &mut BitReader, slice: &Slice) -> Option<MbKind>
    requires in_p { IsTrue slice.now.is_p }
    requires some { 1 ≤ slice.now.active }
    requires few { slice.now.active ≤ 16 }
    ensures { Gives (IsKindOf slice.now 3) (prediction_bits slice.now (place_before reader.old)) reader.old result reader.new }
{
    let subs = read_subs(reader, slice)?;
    let pattern = read_pattern(reader, false)?;
    Some(MbKind::Four(subs, pattern))
}

fn read_four_first(reader: &mut BitReader, slice: &Slice) -> Option<MbKind>
    requires in_p { IsTrue slice.now.is_p }
    requires some { 1 ≤ slice.now.active }
    ensures { Gives (IsKindOf slice.now 4) (prediction_bits slice.now (place_before reader.old)) reader.old result reader.new }
{
    let subs = read_first_subs(reader, slice)?;
    let pattern = read_pattern(reader, false)?;
    Some(MbKind::FourFirst(subs, pattern))
}

fn read_parts(reader: &mut BitReader, slice: &Slice) -> Option<[Part; 2]>
    requires some { 1 ≤ slice.now.active }
    requires few { slice.now.active ≤ 16 }
    ensures { Gives (AreSo (IsPart slice.now) 2) (parts_bits slice.now) reader.old result reader.new }
{
    let references = read_two_references(reader, slice)?;
    let deltas = read_two_vectors(reader)?;
    Some([
        Part {
            reference: references[0],
            delta: deltas[0],
        },
        Part {
            reference: references[1],
            delta: deltas[1],
        },
    ])
}

fn read_two_references(reader: &mut BitReader, slice: &Slice) -> Option<[u32; 2]>
    requires some { 1 ≤ slice.now.active }
    requires few { slice.now.active ≤ 16 }
    ensures { Gives (AreSo (IsReference slice.now) 2) (flat_map (reference_bits slice.now)) reader.old result reader.new }
{
    let first = read_reference(reader, slice)?;
    let second = read_reference(reader, slice)?;
    Some([first, second])
}

fn read_two_vectors(reader: &mut BitReader) -> Option<[Vector; 2]>
    ensures { Gives (AreSo IsVector 2) (flat_map vector_bits) reader.old result reader.new }
{
    let first = read_vector(reader)?;
    let second = read_vector(reader)?;
    Some([first, second])
}

fn read_subs(reader: &mut BitReader, slice: &Slice) -> Option<[Sub; 4]>
    requires some { 1 ≤ slice.now.active }
    requires few { slice.now.active ≤ 16 }
    ensures { Gives (AreSo (IsSub slice.now) 4) (subs_bits slice.now) reader.old result reader.new }
{
    let kinds = read_sub_kinds(reader)?;
    let references = read_references(reader, slice)?;
    read_subs_of(reader, &kinds, &references)
}

// The references of P_8x8ref0 are all 0, and aren't spelled.
fn read_first_subs(reader: &mut BitReader, slice: &Slice) -> Option<[Sub; 4]>
    requires some { 1 ≤ slice.now.active }
    ensures { Gives (AreSo (IsFirstSub slice.now) 4) first_subs_bits reader.old result reader.new }
{
    let kinds = read_sub_kinds(reader)?;
    read_subs_of(reader, &kinds, &[0; 4])
}

fn read_sub_kinds(reader: &mut BitReader) -> Option<[u32; 4]>
    ensures { Gives (AreSo IsSubKind 4) (flat_map ue) reader.old result reader.new }
{
    let mut kinds = [0; 4];
    for i in 0..4 {
        kinds[i] = read_sub_kind(reader)?;
    }
    Some(kinds)
}

fn read_sub_kind(reader: &mut BitReader) -> Option<u32>
    ensures { Gives IsSubKind ue reader.old result reader.new }
{
    let kind = reader.read_ue()?;
    if kind > 3 {
        return None;
    }
    Some(kind)
}

fn read_references(reader: &mut BitReader, slice: &Slice) -> Option<[u32; 4]>
    requires some { 1 ≤ slice.now.active }
    requires few { slice.now.active ≤ 16 }
    ensures { Gives (AreSo (IsReference slice.now) 4) (flat_map (reference_bits slice.now)) reader.old result reader.new }
{
    let mut references = [0; 4];
    for i in 0..4 {
        references[i] = read_reference(reader, slice)?;
    }
    Some(references)
}

// Sub-macroblocks of these types and references, of which the vectors are read.
fn read_subs_of(reader: &mut BitReader, kinds: &[u32; 4], references: &[u32; 4]) -> Option<[Sub; 4]>
    ensures { Gives (AreSubsOf kinds.now references.now) (flat_map sub_vector_bits) reader.old result reader.new }
{
    let mut subs = [Sub {
        reference: 0,
        kind: 0,
        deltas: [ZERO; 4],
    }; 4];
    for i in 0..4 {
        let deltas = read_deltas(reader, kinds[i])?;
        subs[i] = Sub {
            reference: references[i],
            kind: kinds[i],
            deltas,
        };
    }
    Some(subs)
}

// The vectors that a sub_mb_type has, and zeros behind them.
fn read_deltas(reader: &mut BitReader, kind: u32) -> Option<[Vector; 4]>
    ensures { Gives (AreDeltas kind) (deltas_bits kind) reader.old result reader.new }
{
    let mut deltas = [ZERO; 4];
    for i in 0..sub_parts(kind) {
        deltas[i] = read_vector(reader)?;
    }
    Some(deltas)
}

/// NumSubMbPart of sub_mb_type (H.264, Table 7-17).
pub fn sub_parts(kind: u32) -> usize
    ensures sub_parts { result ≡ kinds.sub_parts kind }
    ensures few { result ≤ 4 }
{
    match kind {
        0 => 1,
        3 => 4,
        _ => 2,
    }
}

fn read_reference(reader: &mut BitReader, slice: &Slice) -> Option<u32>
    requires some { 1 ≤ slice.now.active }
    requires few { slice.now.active ≤ 16 }
    ensures { Gives (IsReference slice.now) (reference_bits slice.now) reader.old result reader.new }
{
    if slice.active == 1 {
        return Some(0);
    }
    reader.read_te(slice.active - 1)
}

fn read_vector(reader: &mut BitReader) -> Option<Vector>
    ensures { Gives IsVector vector_bits reader.old result reader.new }
{
    let x = reader.read_se()?;
    let y = reader.read_se()?;
    Some(Vector { x, y })
}
