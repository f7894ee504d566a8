// The blocks of levels of a macroblock (H.264, 7.3.5.3).
ghost use Rattle.std.specs.Prelude.{◌≡◌, ◌+◌, ◌*◌, ◌<◌, ◌≤◌, if◌then◌else◌, ℕ, ℤ, List, [], All, IfSome, false, length, map, negsuc, option_map};
ghost use Rattle.cavlc.specs.Blocks.{HasSpelling, block_bits};
ghost use Rattle.cavlc.specs.Coefficients.{total_coeff};
ghost use Rattle.cavlc.specs.Parts.{Gives};
ghost use Rattle.cb_types.specs.declared.macroblock.Macroblock.{Macroblock};
ghost use Rattle.cb_types.specs.declared.macroblock.MbKind.{MbKind};
ghost use Rattle.mb_syntax.specs.Around.{IsAround, IsChromaSoFar, IsCountOf, IsLumaSoFar};
ghost use Rattle.mb_syntax.specs.Blocks.{AreBlocks, IsNextBlock, next_block_bits, residual_bits};
ghost use Rattle.mb_syntax.specs.Counts.{block_of, blocks_of, chroma_place, dc_block};
ghost use Rattle.mb_syntax.specs.Kinds.{is_intra16, is_pcm, pattern_of};
ghost use Rattle.mb_syntax.specs.Stretches.{AreCounted, AreNext, HasSizes, Stands, bits_behind, most_luma};
ghost use Rattle.mb_syntax.specs.declared.slice.Slice.{Slice};

use super::counts::{Around, Counts};
use bit_io::BitReader;
use cavlc::read_block_into;
use cb_types::{DcLevels, Levels, Macroblock, MbKind};

/// Reads the blocks that the macroblock's kind codes, clears the others, and gives how many levels each has. None
/// where no blocks' bits begin what is left; the macroblock's blocks and the reader are unspecified then.
pub fn read_residual(reader: &mut BitReader, around: &Around, mb: &mut Macroblock) -> Option<Counts>
    ensures reads { (slice : Slice) (before : List Macroblock) → IsAround slice before around.now →
        Gives (λ blocks. (length blocks ≡ 27) × AreBlocks slice before mb.old.kind blocks) (residual_bits slice before mb.old.kind) reader.old (option_map (λ counts. blocks_of mb.new) result) reader.new }
    ensures kind { mb.new.kind ≡ mb.old.kind }
    ensures qp_delta { mb.new.qp_delta ≡ mb.old.qp_delta }
    ensures sizes { IfSome result (λ counts. HasSizes mb.new) }
    ensures counts { is_pcm mb.old.kind ≡ false → IfSome result (λ counts. IsCountOf counts mb.new) }
{
    let pattern = pattern_of(&mb.kind);
    let is_intra16 = is_intra16(&mb.kind);
    read_luma_dc(reader, around, is_intra16, &mut mb.luma_dc)?;
    let most = most_luma(is_intra16);
    let luma = read_luma(reader, around, pattern, most, &mut mb.luma)?;
    mb.chroma_dc = read_chroma_dc(reader, pattern)?;
    let cb = read_chroma(reader, around, pattern, 0, &mut mb.chroma[0].0)?;
    let cr = read_chroma(reader, around, pattern, 1, &mut mb.chroma[1].0)?;
    Some(Counts { luma, cb, cr })
}

// Reads the DC block of Intra16x16, where it is coded.
fn read_luma_dc(
    reader: &mut BitReader,
    around: &Around,
    coded: bool,
    block: &mut [i32; 16],
) -> Option<()>
    ensures { (slice : Slice) (before : List Macroblock) (kind : MbKind) → IsAround slice before around.now → is_intra16 kind ≡ coded →
        Gives (IsNextBlock slice before kind []) (next_block_bits slice before kind []) reader.old (option_map (λ done. block.new) result) reader.new }
{
    if coded {
        let nc = around.luma_nc(&[0; 16], 0);
        read_block_into(reader, nc, 16, block)?;
    } else {
        *block = [0; 16];
    }
    Some(())
}

/// How many levels a luma block can have: those of Intra_16x16 are without their DC level.
pub fn most_luma(is_intra16: bool) -> u32
    ensures most { result ≡ if is_intra16 then 15 else 16 }
    ensures few { result ≤ 16 }
{
    if is_intra16 { 15 } else { 16 }
}

// Reads the luma blocks behind the DC block.
fn read_luma(
    reader: &mut BitReader,
    around: &Around,
    pattern: u32,
    most: u32,
    luma: &mut [Levels; 16],
) -> Option<[u8; 16]>
    requires { most ≤ 16 }
    ensures reads { (slice : Slice) (before : List Macroblock) (kind : MbKind) (behind : List (List ℤ)) → Stands slice before kind around.now pattern behind 1 → most_luma kind ≡ most →
        Gives (AreNext slice before kind behind 16) (bits_behind slice before kind behind) reader.old (option_map (λ counts. map block_of luma.new) result) reader.new }
    ensures counts { IfSome result (λ counts. AreCounted (map block_of luma.new) counts 16) }
{
    let mut counts = [0; 16];
    for (k, block) in luma.iter_mut().enumerate() {
        counts[k] = read_luma_block(reader, around, pattern, most, &counts, k as u32, block)?;
    }
    Some(counts)
}

// Reads the luma block of this number, and gives its TotalCoeff.
#[inline]
fn read_luma_block(
    reader: &mut BitReader,
    around: &Around,
    pattern: u32,
    most: u32,
    counts: &[u8; 16],
    k: u32,
    block: &mut Levels,
) -> Option<u8>
    requires k { k < 16 }
    requires most { most ≤ 16 }
    ensures reads { (slice : Slice) (before : List Macroblock) (kind : MbKind) (behind : List (List ℤ)) → Stands slice before kind around.now pattern behind (1 + k) →
        most_luma kind ≡ most → IsLumaSoFar behind counts.now k →
        Gives (IsNextBlock slice before kind behind) (next_block_bits slice before kind behind) reader.old (option_map (λ total. block_of block.new) result) reader.new }
    ensures total { IfSome result (λ total. total ≡ total_coeff (block_of block.new)) }
{
    if pattern >> (k / 4) & 1 == 1 {
        let nc = around.luma_nc(counts, k);
        Some(read_block_into(reader, nc, most, &mut block.0)? as u8)
    } else {
        block.0 = [0; 16];
        Some(0)
    }
}

// Reads the DC blocks of Cb and Cr.
fn read_chroma_dc(reader: &mut BitReader, pattern: u32) -> Option<[DcLevels; 2]>
    ensures sizes { IfSome result (All (λ levels. length levels.0 ≡ 4)) }
    ensures reads { (slice : Slice) (before : List Macroblock) (kind : MbKind) (behind : List (List ℤ)) → pattern_of kind ≡ pattern → length behind ≡ 17 →
        Gives (AreNext slice before kind behind 2) (bits_behind slice before kind behind) reader.old (option_map (map dc_block) result) reader.new }
{
    let mut levels = [DcLevels([0; 4]); 2];
    if pattern >= 16 {
        levels[0] = read_dc_block(reader)?;
        levels[1] = read_dc_block(reader)?;
    }
    Some(levels)
}

fn read_dc_block(reader: &mut BitReader) -> Option<DcLevels>
    ensures size { IfSome result (λ levels. length levels.0 ≡ 4) }
    ensures reads { Gives (HasSpelling (negsuc 0) 4) (block_bits (negsuc 0) 4) reader.old (option_map dc_block result) reader.new }
{
    let mut block = [0; 16];
    read_block_into(reader, -1, 4, &mut block)?;
    Some(DcLevels([block[0], block[1], block[2], block[3]]))
}

// Reads the AC blocks of Cb (plane 0) or Cr (plane 1).
fn read_chroma(
    reader: &mut BitReader,
    around: &Around,
    pattern: u32,
    plane: usize,
    ac: &mut [Levels; 4],
) -> Option<[u8; 4]>
    requires { plane < 2 }
    ensures reads { (slice : Slice) (before : List Macroblock) (kind : MbKind) (behind : List (List ℤ)) → Stands slice before kind around.now pattern behind (19 + 4 * plane) →
        Gives (AreNext slice before kind behind 4) (bits_behind slice before kind behind) reader.old (option_map (λ counts. map block_of ac.new) result) reader.new }
    ensures counts { IfSome result (λ counts. AreCounted (map block_of ac.new) counts 4) }
{
    let mut counts = [0; 4];
    for (k, block) in ac.iter_mut().enumerate() {
        counts[k] = read_chroma_block(reader, around, pattern, plane, &counts, k as u32, block)?;
    }
    Some(counts)
}

// Reads the AC block of this number, and gives its TotalCoeff.
#[inline]
fn read_chroma_block(
    reader: &mut BitReader,
    around: &Around,
    pattern: u32,
    plane: usize,
    counts: &[u8; 4],
    k: u32,
    block: &mut Levels,
) -> Option<u8>
    requires plane { plane < 2 }
    requires k { k < 4 }
    ensures reads { (slice : Slice) (before : List Macroblock) (kind : MbKind) (behind : List (List ℤ)) → Stands slice before kind around.now pattern behind (chroma_place plane k) →
        IsChromaSoFar behind plane counts.now k →
        Gives (IsNextBlock slice before kind behind) (next_block_bits slice before kind behind) reader.old (option_map (λ total. block_of block.new) result) reader.new }
    ensures total { IfSome result (λ total. total ≡ total_coeff (block_of block.new)) }
{
    if pattern / 16 == 2 {
        let nc = around.chroma_nc(counts, plane, k);
        Some(read_block_into(reader, nc, 15, &mut block.0)? as u8)
    } else {
        block.0 = [0; 16];
        Some(0)
    }
}

/// Whether the macroblock is predicted as Intra_16x16.
pub fn is_intra16(kind: &MbKind) -> bool
    ensures { result ≡ is_intra16 kind.now }
{
    matches!(kind, MbKind::Intra16 { .. })
}

/// CodedBlockPatternLuma plus 16 times CodedBlockPatternChroma.
pub fn pattern_of(kind: &MbKind) -> u32
    ensures { result ≡ pattern_of kind.now }
{
    match kind {
        MbKind::Skip | MbKind::Pcm(_) => 0,
        MbKind::Intra4 { pattern, .. } => *pattern,
        MbKind::Intra16 { pattern, .. } => *pattern,
        MbKind::Whole(_, pattern) => *pattern,
        MbKind::Wide(_, pattern) => *pattern,
        MbKind::Tall(_, pattern) => *pattern,
        MbKind::Four(_, pattern) => *pattern,
        MbKind::FourFirst(_, pattern) => *pattern,
    }
}
