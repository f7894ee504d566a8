// Writing the blocks of levels of a macroblock (H.264, 7.3.5.3).
ghost use Rattle.std.specs.Prelude.{◌≡◌, ◌++◌, ◌<◌, ◌≤◌, IfOk, OnErr, OnOk, ℤ, List, [], false, map, negsuc};
ghost use Rattle.cavlc.specs.Blocks.{HasSpelling, block_bits};
ghost use Rattle.cavlc.specs.Coefficients.{total_coeff};
ghost use Rattle.cavlc.specs.Parts.{IsLonger};
ghost use Rattle.cb_types.specs.declared.macroblock.Macroblock.{Macroblock};
ghost use Rattle.cb_types.specs.declared.macroblock.MbKind.{MbKind};
ghost use Rattle.mb_syntax.specs.Around.{IsCountOf};
ghost use Rattle.mb_syntax.specs.Blocks.{next_block_bits, residual_bits};
ghost use Rattle.mb_syntax.specs.Counts.{block_of, blocks_of, dc_block};
ghost use Rattle.mb_syntax.specs.Kinds.{is_pcm};
ghost use Rattle.mb_syntax.specs.Stretches.{AreChroma, AreCounted, AreDc, AreLuma, IsFirst, IsNextChroma, IsNextLuma, IsSpelled, bits_behind};
ghost use Rattle.mb_syntax.specs.declared.slice.Slice.{Slice};

use super::counts::{Around, Counts};
use super::residual::{is_intra16, most_luma, pattern_of};
use bit_io::BitWriter;
use cavlc::write_block;
use cb_types::{DcLevels, Levels, Macroblock};
use std::alloc::AllocError;

/// Writes the blocks that the macroblock's kind codes, and gives how many levels its blocks have. After an
/// `Err` some of them may be written.
pub fn put_residual(
    out: &mut BitWriter,
    around: &Around,
    mb: &Macroblock,
) -> Result<Counts, AllocError>
    requires { (slice : Slice) × (before : List Macroblock) × IsSpelled slice before around.now mb.now }
    ensures ok { (slice : Slice) (before : List Macroblock) → IsSpelled slice before around.now mb.now →
        OnOk result (out.new ≡ out.old ++ residual_bits slice before mb.now.kind (blocks_of mb.now)) }
    ensures counts { is_pcm mb.now.kind ≡ false → IfOk result (λ counts. IsCountOf counts mb.now) }
    ensures err { OnErr result (IsLonger out.old out.new) }
{
    let pattern = pattern_of(&mb.kind);
    let is_intra16 = is_intra16(&mb.kind);
    put_luma_dc(out, around, is_intra16, &mb.luma_dc)?;
    let most = most_luma(is_intra16);
    let luma = put_luma(out, around, pattern, most, &mb.luma)?;
    put_chroma_dc(out, pattern, &mb.chroma_dc)?;
    let cb = put_chroma(out, around, pattern, 0, &mb.chroma[0].0)?;
    let cr = put_chroma(out, around, pattern, 1, &mb.chroma[1].0)?;
    Ok(Counts { luma, cb, cr })
}

// Writes the DC block of Intra16x16, where it is coded.
fn put_luma_dc(
    out: &mut BitWriter,
    around: &Around,
    coded: bool,
    block: &[i32; 16],
) -> Result<(), AllocError>
    requires { (slice : Slice) × (before : List Macroblock) × (kind : MbKind) × IsFirst slice before kind around.now coded block.now }
    ensures ok { (slice : Slice) (before : List Macroblock) (kind : MbKind) → IsFirst slice before kind around.now coded block.now →
        OnOk result (out.new ≡ out.old ++ next_block_bits slice before kind [] block.now) }
    ensures err { OnErr result (out.new ≡ out.old) }
{
    if !coded {
        return Ok(());
    }
    write_block(out, around.luma_nc(&[0; 16], 0), 16, block)
}

// Writes the luma blocks behind the DC block, and gives the TotalCoeff of each.
fn put_luma(
    out: &mut BitWriter,
    around: &Around,
    pattern: u32,
    most: u32,
    luma: &[Levels; 16],
) -> Result<[u8; 16], AllocError>
    requires most { most ≤ 16 }
    requires spelling { (slice : Slice) × (before : List Macroblock) × (kind : MbKind) × (behind : List (List ℤ)) × AreLuma slice before kind behind around.now pattern most (map block_of luma.now) }
    ensures ok { (slice : Slice) (before : List Macroblock) (kind : MbKind) (behind : List (List ℤ)) → AreLuma slice before kind behind around.now pattern most (map block_of luma.now) →
        OnOk result (out.new ≡ out.old ++ bits_behind slice before kind behind (map block_of luma.now)) }
    ensures counts { IfOk result (λ counts. AreCounted (map block_of luma.now) counts 16) }
    ensures err { OnErr result (IsLonger out.old out.new) }
{
    let mut counts = [0; 16];
    for (k, block) in luma.iter().enumerate() {
        counts[k] = put_luma_block(out, around, pattern, most, &counts, k as u32, block)?;
    }
    Ok(counts)
}

// Writes the luma block of this number, and gives its TotalCoeff.
fn put_luma_block(
    out: &mut BitWriter,
    around: &Around,
    pattern: u32,
    most: u32,
    counts: &[u8; 16],
    k: u32,
    block: &Levels,
) -> Result<u8, AllocError>
    requires k { k < 16 }
    requires most { most ≤ 16 }
    requires spelling { (slice : Slice) × (before : List Macroblock) × (kind : MbKind) × (behind : List (List ℤ)) × IsNextLuma slice before kind behind around.now pattern most counts.now k (block_of block.now) }
    ensures ok { (slice : Slice) (before : List Macroblock) (kind : MbKind) (behind : List (List ℤ)) → IsNextLuma slice before kind behind around.now pattern most counts.now k (block_of block.now) →
        OnOk result (out.new ≡ out.old ++ next_block_bits slice before kind behind (block_of block.now)) }
    ensures total { IfOk result (λ total. total ≡ total_coeff (block_of block.now)) }
    ensures err { OnErr result (out.new ≡ out.old) }
{
    if pattern >> (k / 4) & 1 == 1 {
        write_block(out, around.luma_nc(counts, k), most, &block.0)?;
    }
    Ok(count_levels(&block.0))
}

// Writes the DC blocks of Cb and Cr.
fn put_chroma_dc(
    out: &mut BitWriter,
    pattern: u32,
    levels: &[DcLevels; 2],
) -> Result<(), AllocError>
    requires { (slice : Slice) × (before : List Macroblock) × (kind : MbKind) × (behind : List (List ℤ)) × AreDc slice before kind behind pattern (map dc_block levels.now) }
    ensures ok { (slice : Slice) (before : List Macroblock) (kind : MbKind) (behind : List (List ℤ)) → AreDc slice before kind behind pattern (map dc_block levels.now) →
        OnOk result (out.new ≡ out.old ++ bits_behind slice before kind behind (map dc_block levels.now)) }
    ensures err { OnErr result (IsLonger out.old out.new) }
{
    if pattern < 16 {
        return Ok(());
    }
    put_dc_block(out, &levels[0])?;
    put_dc_block(out, &levels[1])
}

fn put_dc_block(out: &mut BitWriter, levels: &DcLevels) -> Result<(), AllocError>
    requires { HasSpelling (negsuc 0) 4 (dc_block levels.now) }
    ensures ok { OnOk result (out.new ≡ out.old ++ block_bits (negsuc 0) 4 (dc_block levels.now)) }
    ensures err { OnErr result (out.new ≡ out.old) }
{
    let four = &levels.0;
    let block = [
        four[0], four[1], four[2], four[3], 0, 0, 0, 0, 0, 0, 0, 0, 0, 0, 0, 0,
    ];
    write_block(out, -1, 4, &block)
}

// Writes the AC blocks of Cb (plane 0) or Cr (plane 1), and gives the TotalCoeff of each.
fn put_chroma(
    out: &mut BitWriter,
    around: &Around,
    pattern: u32,
    plane: usize,
    ac: &[Levels; 4],
) -> Result<[u8; 4], AllocError>
    requires plane { plane < 2 }
    requires spelling { (slice : Slice) × (before : List Macroblock) × (kind : MbKind) × (behind : List (List ℤ)) × AreChroma slice before kind behind around.now pattern plane (map block_of ac.now) }
    ensures ok { (slice : Slice) (before : List Macroblock) (kind : MbKind) (behind : List (List ℤ)) → AreChroma slice before kind behind around.now pattern plane (map block_of ac.now) →
        OnOk result (out.new ≡ out.old ++ bits_behind slice before kind behind (map block_of ac.now)) }
    ensures counts { IfOk result (λ counts. AreCounted (map block_of ac.now) counts 4) }
    ensures err { OnErr result (IsLonger out.old out.new) }
{
    let mut counts = [0; 4];
    for (k, block) in ac.iter().enumerate() {
        counts[k] = put_chroma_block(out, around, pattern, plane, &counts, k as u32, block)?;
    }
    Ok(counts)
}

// Writes the AC block of this number, and gives its TotalCoeff.
fn put_chroma_block(
    out: &mut BitWriter,
    around: &Around,
    pattern: u32,
    plane: usize,
    counts: &[u8; 4],
    k: u32,
    block: &Levels,
) -> Result<u8, AllocError>
    requires plane { plane < 2 }
    requires k { k < 4 }
    requires spelling { (slice : Slice) × (before : List Macroblock) × (kind : MbKind) × (behind : List (List ℤ)) × IsNextChroma slice before kind behind around.now pattern plane counts.now k (block_of block.now) }
    ensures ok { (slice : Slice) (before : List Macroblock) (kind : MbKind) (behind : List (List ℤ)) → IsNextChroma slice before kind behind around.now pattern plane counts.now k (block_of block.now) →
        OnOk result (out.new ≡ out.old ++ next_block_bits slice before kind behind (block_of block.now)) }
    ensures total { IfOk result (λ total. total ≡ total_coeff (block_of block.now)) }
    ensures err { OnErr result (out.new ≡ out.old) }
{
    if pattern / 16 == 2 {
        write_block(out, around.chroma_nc(counts, plane, k), 15, &block.0)?;
    }
    Ok(count_levels(&block.0))
}

// TotalCoeff.
fn count_levels(block: &[i32; 16]) -> u8
    ensures { result ≡ total_coeff block.now }
{
    let mut total = 0;
    for level in block {
        if *level != 0 {
            total += 1;
        }
    }
    total
}
