// Residual samples, added to predicted ones. H.264, 8.5.
ghost use Rattle.std.specs.Prelude.{◌≡◌, ℕ, ◌+◌, ◌*◌, ◌/◌, ◌%◌, ◌^◌, ◌<◌, ◌≤◌, ◌==◌, ◌&&◌, if◌then◌else◌, All, IfSome, false, length, option_map, slice_index};
ghost use Rattle.std.specs.Bool.{OnTrue};
ghost use Rattle.std.specs.Option.{ForSome};
ghost use Rattle.int_transform.specs.Bounds.{AreWithin, IsWithin};
ghost use Rattle.int_transform.specs.Residual.{residual_at};
ghost use Rattle.int_transform.specs.Scan.{value_at};
ghost use Rattle.vd_plane.specs.Tiles.{sample_in_rows};
ghost use Rattle.recon.specs.Conditions.{AreLevels};
ghost use Rattle.recon.specs.Marks.{has_levels};
ghost use Rattle.recon.specs.Residuals.{HasNoDc, chroma_residual, constructed, luma_dc_of, luma_residual};

use cb_types::{DcLevels, Levels, Macroblock, MbKind, block_x, block_y};
use int_transform::{chroma_dc, luma_dc, residual};

/// Whether a block has a level other than 0.
pub fn has_levels(levels: &Levels) -> bool
    ensures { result ≡ has_levels levels.now.0 }
{
    let mut some = false;
    for level in &levels.0 {
        some |= *level != 0;
    }
    some
}

/// Adds the residual of a 4x4 block to the samples of a macroblock that stand in rows of `stride`.
/// `column` and `row` count blocks.
pub fn add_block(
    samples: &mut [u8],
    stride: usize,
    column: usize,
    row: usize,
    levels: &Levels,
    dc: Option<i32>,
    qp: u32,
)
    requires stride { stride ≤ 16 }
    requires across { 4 * column + 4 ≤ stride }
    requires down { (4 * row + 4) * stride ≤ length samples.old }
    requires levels { AreLevels levels.now }
    requires dc { ForSome dc (IsWithin (2 ^ 27)) }
    requires qp { qp ≤ 51 }
    ensures { (x y : ℕ) → x < stride → sample_in_rows stride samples.new x y ≡ (if (x / 4 == column) && (y / 4 == row)
        then constructed (sample_in_rows stride samples.old x y) (residual_at levels.now.0 dc qp (y % 4) (x % 4))
        else sample_in_rows stride samples.old x y) }
{
    if is_zero(levels, dc) {
        return;
    }
    let residual = residual(&levels.0, dc, qp);
    add_values(samples, stride, column, row, &residual);
}

// Whether a block has no residual.
fn is_zero(levels: &Levels, dc: Option<i32>) -> bool
    ensures { OnTrue result ((has_levels levels.now.0 ≡ false) × HasNoDc dc) }
{
    match dc {
        Some(dc) => dc == 0 && !has_levels(levels),
        None => !has_levels(levels),
    }
}

// Adds the values of a 4x4 block, given by rows.
fn add_values(samples: &mut [u8], stride: usize, column: usize, row: usize, values: &[i32; 16])
    requires stride { stride ≤ 16 }
    requires across { 4 * column + 4 ≤ stride }
    requires down { (4 * row + 4) * stride ≤ length samples.old }
    requires values { AreWithin (2 ^ 25) values.now }
    ensures { (x y : ℕ) → x < stride → sample_in_rows stride samples.new x y ≡ (if (x / 4 == column) && (y / 4 == row)
        then constructed (sample_in_rows stride samples.old x y) (value_at values.now (4 * (y % 4) + x % 4))
        else sample_in_rows stride samples.old x y) }
{
    for y in 0..4 {
        let start = (4 * row + y) * stride + 4 * column;
        add_row(&mut samples[start..start + 4], &values[4 * y..4 * y + 4]);
    }
}

fn add_row(samples: &mut [u8], values: &[i32])
    requires count { length samples.old ≡ 4 }
    requires value_count { length values.now ≡ 4 }
    requires values { AreWithin (2 ^ 25) values.now }
    ensures { (k : ℕ) → k < 4 → slice_index samples.new k ≡ constructed (slice_index samples.old k) (value_at values.now k) }
{
    for k in 0..4 {
        samples[k] = constructed(samples[k], values[k]);
    }
}

#[inline]
fn constructed(prediction: u8, residual: i32) -> u8
    requires { IsWithin (2 ^ 25) residual }
    ensures { result ≡ constructed prediction residual }
{
    (i32::from(prediction) + residual).clamp(0, 255) as u8
}

/// Adds the residual of a macroblock's luma blocks to its predicted samples.
pub fn add_luma(luma: &mut [u8; 256], macroblock: &Macroblock, qp: u32)
    requires dc { AreWithin 4096 macroblock.now.luma_dc }
    requires levels { All AreLevels macroblock.now.luma }
    requires qp { qp ≤ 51 }
    ensures { (x y : ℕ) → x < 16 → y < 16 → sample_in_rows 16 luma.new x y ≡ constructed (sample_in_rows 16 luma.old x y) (luma_residual macroblock.now qp x y) }
{
    let dc = luma_dcs(macroblock, qp);
    for block in 0..16 {
        let column = block_x(block) as usize;
        let row = block_y(block) as usize;
        let dc = match &dc {
            Some(dc) => Some(dc[4 * row + column]),
            None => None,
        };
        let levels = &macroblock.luma[block as usize];
        add_block(luma, 16, column, row, levels, dc, qp);
    }
}

// The DC values of the luma blocks of Intra16x16, row by row.
fn luma_dcs(macroblock: &Macroblock, qp: u32) -> Option<[i32; 16]>
    requires dc { AreWithin 4096 macroblock.now.luma_dc }
    requires qp { qp ≤ 51 }
    ensures values { (column row : ℕ) → column < 4 → row < 4 → option_map (λ dc. value_at dc (4 * row + column)) result ≡ luma_dc_of macroblock.now.kind macroblock.now.luma_dc qp column row }
    ensures within { IfSome result (AreWithin (2 ^ 27)) }
{
    match macroblock.kind {
        MbKind::Intra16 { .. } => Some(luma_dc(&macroblock.luma_dc, qp)),
        _ => None,
    }
}

/// Adds the residual of the blocks of Cb or Cr to predicted samples.
pub fn add_chroma(chroma: &mut [u8; 64], dc: &DcLevels, blocks: &[Levels; 4], qp: u32)
    requires dc { AreWithin 4096 dc.now.0 }
    requires levels { All AreLevels blocks.now }
    requires qp { qp ≤ 51 }
    ensures { (x y : ℕ) → x < 8 → y < 8 → sample_in_rows 8 chroma.new x y ≡ constructed (sample_in_rows 8 chroma.old x y) (chroma_residual dc.now blocks.now qp x y) }
{
    let dc = chroma_dc(&dc.0, qp);
    for block in 0..4 {
        add_block(
            chroma,
            8,
            block % 2,
            block / 2,
            &blocks[block],
            Some(dc[block]),
            qp,
        );
    }
}
