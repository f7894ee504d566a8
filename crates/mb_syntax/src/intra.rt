// The prediction of intra macroblocks (H.264, 7.3.5 and 7.3.5.1).
ghost use Rattle.std.specs.Prelude.{◌≡◌, ◌+◌, ◌-◌, ◌<◌, ◌≤◌, ◌%◌, All, length, true};
ghost use Rattle.std.specs.List.{flat_map};
ghost use Rattle.bit_io.specs.Bits.{bits_of};
ghost use Rattle.bit_io.specs.Codewords.{ue};
ghost use Rattle.cavlc.specs.Parts.{Gives};
ghost use Rattle.mb_syntax.specs.Kinds.{intra_type, mb_type};
ghost use Rattle.mb_syntax.specs.Prediction.{AreModes, AreSamples, IsKindOf, IsMode, alignment, mode_bits, prediction_bits};
ghost use Rattle.mb_syntax.specs.MacroblockLayer.{place_before};

use super::kinds::read_pattern;
use super::slice::Slice;
use bit_io::BitReader;
use cb_types::{MbKind, Mode};

pub fn read_intra4(reader: &mut BitReader, slice: &Slice) -> Option<MbKind>
    ensures { Gives (IsKindOf slice.now (intra_type slice.now.is_p 0)) (prediction_bits slice.now (place_before reader.old)) reader.old result reader.new }
{
    let modes = read_modes(reader)?;
    let chroma = read_chroma_mode(reader)?;
    let pattern = read_pattern(reader, true)?;
    Some(MbKind::Intra4 {
        modes,
        chroma,
        pattern,
    })
}

/// Reads what follows mb_type 1 to 24, which has the prediction mode and the coded block pattern.
pub fn read_intra16(reader: &mut BitReader, slice: &Slice, number: u32) -> Option<MbKind>
    requires some { 1 ≤ number }
    requires few { number ≤ 24 }
    ensures { Gives (IsKindOf slice.now (intra_type slice.now.is_p number)) (prediction_bits slice.now (place_before reader.old)) reader.old result reader.new }
{
    let chroma = read_chroma_mode(reader)?;
    let luma = if number > 12 { 15 } else { 0 };
    Some(MbKind::Intra16 {
        mode: (number - 1) % 4,
        chroma,
        pattern: luma + 16 * ((number - 1) / 4 % 3),
    })
}

pub fn read_pcm(reader: &mut BitReader, slice: &Slice) -> Option<MbKind>
    ensures { Gives (IsKindOf slice.now (intra_type slice.now.is_p 25)) (prediction_bits slice.now (place_before reader.old)) reader.old result reader.new }
{
    read_alignment(reader)?;
    let samples = read_samples(reader)?;
    Some(MbKind::Pcm(samples))
}

fn read_alignment(reader: &mut BitReader) -> Option<()>
    ensures { Gives (λ done. Unit {0}) (λ done. alignment (place_before reader.old)) reader.old result reader.new }
{
    let zeros = reader.bits_to_byte();
    if reader.read_u(zeros)? != 0 {
        return None;
    }
    Some(())
}

fn read_samples(reader: &mut BitReader) -> Option<[u8; 384]>
    ensures { Gives AreSamples bits_of reader.old result reader.new }
{
    let mut samples = [0; 384];
    for i in 0..384 {
        samples[i] = reader.read_u(8)? as u8;
    }
    Some(samples)
}

fn read_modes(reader: &mut BitReader) -> Option<[Mode; 16]>
    ensures { Gives AreModes (flat_map mode_bits) reader.old result reader.new }
{
    let mut modes = [Mode::Predicted; 16];
    for i in 0..16 {
        modes[i] = read_mode(reader)?;
    }
    Some(modes)
}

fn read_mode(reader: &mut BitReader) -> Option<Mode>
    ensures { Gives IsMode mode_bits reader.old result reader.new }
{
    if reader.read_u(1)? == 1 {
        return Some(Mode::Predicted);
    }
    let remaining = reader.read_u(3)?;
    Some(Mode::Remaining(remaining))
}

fn read_chroma_mode(reader: &mut BitReader) -> Option<u32>
    ensures { Gives (λ mode. mode ≤ 3) ue reader.old result reader.new }
{
    let mode = reader.read_ue()?;
    if mode > 3 {
        return None;
    }
    Some(mode)
}
