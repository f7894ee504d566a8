// Writing the kind of a macroblock, up to its coded block pattern (H.264, 7.3.5, 7.3.5.1 and 7.3.5.2).
ghost use Rattle.std.specs.Prelude.{◌≡◌, ◌≤◌, ◌<◌, ◌++◌, All, IsTrue, OnErr, OnOk, length, false, true, take};
ghost use Rattle.std.specs.List.{flat_map};
ghost use Rattle.bit_io.specs.Bits.{bits_of};
ghost use Rattle.bit_io.specs.Codewords.{ue};
ghost use Rattle.cavlc.specs.Parts.{IsLonger};
ghost use Rattle.mb_syntax.specs.KindSteps.{AreDeltas, AreSo, deltas_bits, first_subs_bits, parts_bits, subs_bits};
ghost use Rattle.mb_syntax.specs.Kinds as kinds;
ghost use Rattle.mb_syntax.specs.Prediction.{AreModes, AreSamples, IsFirstSub, IsKind, IsMode, IsPart, IsReference, IsSub, IsVector, alignment, kind_bits, mode_bits, part_reference_bits, part_vector_bits, pattern_bits, prediction_bits, reference_bits, sub_kind_bits, sub_reference_bits, sub_vector_bits, vector_bits};

use super::inter::sub_parts;
use super::slice::Slice;
use bit_io::BitWriter;
use cb_tables::pattern_code;
use cb_types::{MbKind, Mode, Part, Sub, Vector};
use std::alloc::AllocError;

/// Writes mb_type and what follows it up to the coded block pattern. An `Err` leaves what was written
/// before, and maybe more.
pub fn put_kind(out: &mut BitWriter, slice: &Slice, kind: &MbKind) -> Result<(), AllocError>
    requires some { 1 ≤ slice.now.active }
    requires few { slice.now.active ≤ 16 }
    requires kind { IsKind slice.now kind.now }
    ensures ok { OnOk result (out.new ≡ out.old ++ kind_bits slice.now (length out.old) kind.now) }
    ensures err { OnErr result (IsLonger out.old out.new) }
{
    let number = mb_type(slice, kind);
    out.put_ue(number)?;
    put_prediction(out, slice, kind)
}

fn mb_type(slice: &Slice, kind: &MbKind) -> u32
    requires { IsKind slice.now kind.now }
    ensures { result ≡ kinds.mb_type slice.now.is_p kind.now }
{
    let first_intra = if slice.is_p { 5 } else { 0 };
    match kind {
        MbKind::Skip => 0,
        MbKind::Pcm(_) => first_intra + 25,
        MbKind::Intra4 { .. } => first_intra,
        MbKind::Intra16 { mode, pattern, .. } => first_intra + intra16_type(*mode, *pattern),
        MbKind::Whole(_, _) => 0,
        MbKind::Wide(_, _) => 1,
        MbKind::Tall(_, _) => 2,
        MbKind::Four(_, _) => 3,
        MbKind::FourFirst(_, _) => 4,
    }
}

fn intra16_type(mode: u32, pattern: u32) -> u32
    requires mode { mode ≤ 3 }
    requires pattern { pattern ≤ 47 }
    ensures { result ≡ kinds.intra16_type mode pattern }
{
    let luma = if pattern % 16 == 15 { 12 } else { 0 };
    1 + mode + 4 * (pattern / 16) + luma
}

fn put_prediction(out: &mut BitWriter, slice: &Slice, kind: &MbKind) -> Result<(), AllocError>
    requires some { 1 ≤ slice.now.active }
    requires few { slice.now.active ≤ 16 }
    requires kind { IsKind slice.now kind.now }
    ensures ok { OnOk result (out.new ≡ out.old ++ prediction_bits slice.now (length out.old) kind.now) }
    ensures err { OnErr result (IsLonger out.old out.new) }
{
    match kind {
        MbKind::Skip => Ok(()),
        MbKind::Pcm(samples) => put_pcm(out, samples),
        MbKind::Intra4 {
            modes,
            chroma,
            pattern,
        } => put_intra4(out, modes, *chroma, *pattern),
        MbKind::Intra16 { chroma, .. } => out.put_ue(*chroma),
        MbKind::Whole(part, pattern) => put_whole(out, slice, part, *pattern),
        MbKind::Wide(parts, pattern) => put_parts(out, slice, parts, *pattern),
        MbKind::Tall(parts, pattern) => put_parts(out, slice, parts, *pattern),
        MbKind::Four(subs, pattern) => put_four(out, slice, subs, *pattern),
        MbKind::FourFirst(subs, pattern) => put_four_first(out, slice, subs, *pattern),
    }
}

fn put_pcm(out: &mut BitWriter, samples: &[u8; 384]) -> Result<(), AllocError>
    ensures ok { OnOk result (out.new ≡ out.old ++ (alignment (length out.old) ++ bits_of samples.now)) }
    ensures err { OnErr result (IsLonger out.old out.new) }
{
    let zeros = out.bits_to_byte();
    out.put_u(0, zeros)?;
    put_samples(out, samples)
}

fn put_samples(out: &mut BitWriter, samples: &[u8; 384]) -> Result<(), AllocError>
    ensures ok { OnOk result (out.new ≡ out.old ++ bits_of samples.now) }
    ensures err { OnErr result (IsLonger out.old out.new) }
{
    for i in 0..384 {
        out.put_u(u32::from(samples[i]), 8)?;
    }
    Ok(())
}

fn put_intra4(
    out: &mut BitWriter,
    modes: &[Mode; 16],
    chroma: u32,
    pattern: u32,
) -> Result<(), AllocError>
    requires modes { AreModes modes.now }
    requires chroma { chroma ≤ 3 }
    requires pattern { pattern ≤ 47 }
    ensures ok { OnOk result (out.new ≡ out.old ++ (flat_map mode_bits modes.now ++ ue chroma ++ pattern_bits true pattern)) }
    ensures err { OnErr result (IsLonger out.old out.new) }
{
    put_modes(out, modes)?;
    out.put_ue(chroma)?;
    put_pattern(out, true, pattern)
}

fn put_modes(out: &mut BitWriter, modes: &[Mode; 16]) -> Result<(), AllocError>
    requires { AreModes modes.now }
    ensures ok { OnOk result (out.new ≡ out.old ++ flat_map mode_bits modes.now) }
    ensures err { OnErr result (IsLonger out.old out.new) }
{
    for i in 0..16 {
        put_mode(out, modes[i])?;
    }
    Ok(())
}

fn put_mode(out: &mut BitWriter, mode: Mode) -> Result<(), AllocError>
    requires { IsMode mode }
    ensures ok { OnOk result (out.new ≡ out.old ++ mode_bits mode) }
    ensures err { OnErr result (IsLonger out.old out.new) }
{
    match mode {
        Mode::Predicted => out.put_u(1, 1),
        Mode::Remaining(remaining) => out.put_u(remaining, 4),
    }
}

fn put_pattern(out: &mut BitWriter, intra: bool, pattern: u32) -> Result<(), AllocError>
    requires { pattern ≤ 47 }
    ensures ok { OnOk result (out.new ≡ out.old ++ pattern_bits intra pattern) }
    ensures err { OnErr result (IsLonger out.old out.new) }
{
    out.put_ue(pattern_code(pattern, intra))
}

fn put_whole(
    out: &mut BitWriter,
    slice: &Slice,
    part: &Part,
    pattern: u32,
) -> Result<(), AllocError>
    requires some { 1 ≤ slice.now.active }
    requires few { slice.now.active ≤ 16 }
    requires part { IsPart slice.now part.now }
    requires pattern { pattern ≤ 47 }
    ensures ok { OnOk result (out.new ≡ out.old ++ (part_reference_bits slice.now part.now ++ part_vector_bits part.now ++ pattern_bits false pattern)) }
    ensures err { OnErr result (IsLonger out.old out.new) }
{
    put_reference(out, slice, part.reference)?;
    put_vector(out, part.delta)?;
    put_pattern(out, false, pattern)
}

fn put_parts(
    out: &mut BitWriter,
    slice: &Slice,
    parts: &[Part; 2],
    pattern: u32,
) -> Result<(), AllocError>
    requires some { 1 ≤ slice.now.active }
    requires few { slice.now.active ≤ 16 }
    requires parts { AreSo (IsPart slice.now) 2 parts.now }
    requires pattern { pattern ≤ 47 }
    ensures ok { OnOk result (out.new ≡ out.old ++ (parts_bits slice.now parts.now ++ pattern_bits false pattern)) }
    ensures err { OnErr result (IsLonger out.old out.new) }
{
    put_part_references(out, slice, parts)?;
    put_part_vectors(out, parts)?;
    put_pattern(out, false, pattern)
}

fn put_part_references(
    out: &mut BitWriter,
    slice: &Slice,
    parts: &[Part; 2],
) -> Result<(), AllocError>
    requires some { 1 ≤ slice.now.active }
    requires few { slice.now.active ≤ 16 }
    requires references { All (λ part. IsReference slice.now part.reference) parts.now }
    ensures ok { OnOk result (out.new ≡ out.old ++ flat_map (part_reference_bits slice.now) parts.now) }
    ensures err { OnErr result (IsLonger out.old out.new) }
{
    for i in 0..2 {
        put_reference(out, slice, parts[i].reference)?;
    }
    Ok(())
}

fn put_part_vectors(out: &mut BitWriter, parts: &[Part; 2]) -> Result<(), AllocError>
    requires { All (λ part. IsVector part.delta) parts.now }
    ensures ok { OnOk result (out.new ≡ out.old ++ flat_map part_vector_bits parts.now) }
    ensures err { OnErr result (IsLonger out.old out.new) }
{
    for i in 0..2 {
        put_vector(out, parts[i].delta)?;
    }
    Ok(())
}

fn put_four(
    out: &mut BitWriter,
    slice: &Slice,
    subs: &[Sub; 4],
    pattern: u32,
) -> Result<(), AllocError>
    requires some { 1 ≤ slice.now.active }
    requires few { slice.now.active ≤ 16 }
    requires subs { AreSo (IsSub slice.now) 4 subs.now }
    requires pattern { pattern ≤ 47 }
    ensures ok { OnOk result (out.new ≡ out.old ++ (subs_bits slice.now subs.now ++ pattern_bits false pattern)) }
    ensures err { OnErr result (IsLonger out.old out.new) }
{
    put_sub_kinds(out, subs)?;
    put_sub_references(out, slice, subs)?;
    put_sub_vectors(out, subs)?;
    put_pattern(out, false, pattern)
}

fn put_four_first(
    out: &mut BitWriter,
    slice: &Slice,
    subs: &[Sub; 4],
    pattern: u32,
) -> Result<(), AllocError>
    requires subs { AreSo (IsFirstSub slice.now) 4 subs.now }
    requires pattern { pattern ≤ 47 }
    ensures ok { OnOk result (out.new ≡ out.old ++ (first_subs_bits subs.now ++ pattern_bits false pattern)) }
    ensures err { OnErr result (IsLonger out.old out.new) }
{
    put_sub_kinds(out, subs)?;
    put_sub_vectors(out, subs)?;
    put_pattern(out, false, pattern)
}

fn put_sub_kinds(out: &mut BitWriter, subs: &[Sub; 4]) -> Result<(), AllocError>
    requires { All (λ sub. sub.kind ≤ 3) subs.now }
    ensures ok { OnOk result (out.new ≡ out.old ++ flat_map sub_kind_bits subs.now) }
    ensures err { OnErr result (IsLonger out.old out.new) }
{
    for i in 0..4 {
        out.put_ue(subs[i].kind)?;
    }
    Ok(())
}

fn put_sub_references(out: &mut BitWriter, slice: &Slice, subs: &[Sub; 4]) -> Result<(), AllocError>
    requires some { 1 ≤ slice.now.active }
    requires few { slice.now.active ≤ 16 }
    requires references { All (λ sub. IsReference slice.now sub.reference) subs.now }
    ensures ok { OnOk result (out.new ≡ out.old ++ flat_map (sub_reference_bits slice.now) subs.now) }
    ensures err { OnErr result (IsLonger out.old out.new) }
{
    for i in 0..4 {
        put_reference(out, slice, subs[i].reference)?;
    }
    Ok(())
}

fn put_sub_vectors(out: &mut BitWriter, subs: &[Sub; 4]) -> Result<(), AllocError>
    requires { All (λ sub. AreDeltas sub.kind sub.deltas) subs.now }
    ensures ok { OnOk result (out.new ≡ out.old ++ flat_map sub_vector_bits subs.now) }
    ensures err { OnErr result (IsLonger out.old out.new) }
{
    for i in 0..4 {
        put_deltas(out, subs[i].kind, &subs[i].deltas)?;
    }
    Ok(())
}

fn put_deltas(out: &mut BitWriter, kind: u32, deltas: &[Vector; 4]) -> Result<(), AllocError>
    requires { AreDeltas kind deltas.now }
    ensures ok { OnOk result (out.new ≡ out.old ++ deltas_bits kind deltas.now) }
    ensures err { OnErr result (IsLonger out.old out.new) }
{
    for i in 0..sub_parts(kind) {
        put_vector(out, deltas[i])?;
    }
    Ok(())
}

fn put_reference(out: &mut BitWriter, slice: &Slice, reference: u32) -> Result<(), AllocError>
    requires some { 1 ≤ slice.now.active }
    requires few { slice.now.active ≤ 16 }
    requires reference { IsReference slice.now reference }
    ensures ok { OnOk result (out.new ≡ out.old ++ reference_bits slice.now reference) }
    ensures err { OnErr result (IsLonger out.old out.new) }
{
    if slice.active == 1 {
        return Ok(());
    }
    out.put_te(reference, slice.active - 1)
}

fn put_vector(out: &mut BitWriter, vector: Vector) -> Result<(), AllocError>
    requires { IsVector vector }
    ensures ok { OnOk result (out.new ≡ out.old ++ vector_bits vector) }
    ensures err { OnErr result (IsLonger out.old out.new) }
{
    out.put_se(vector.x)?;
    out.put_se(vector.y)
}
