// Intra predicted luma. H.264, 8.3.1 and 8.3.3.
ghost use Rattle.std.specs.Prelude.{◌≡◌, ℕ, ◌+◌, ◌*◌, ◌/◌, ◌%◌, ◌<◌, ◌≤◌, ◌==◌, ◌&&◌, if◌then◌else◌, All, false, true, MatchOption, slice_index};
ghost use Rattle.int_transform.specs.Bounds.{AreWithin};
ghost use Rattle.int_transform.specs.Residual.{residual_at};
ghost use Rattle.vd_plane.specs.Tiles.{sample_in_rows};
ghost use Rattle.recon.specs.Conditions.{AreLevels};
ghost use Rattle.recon.specs.Intra.{has_edges, has_sides, intra16_sample, intra4_sample};
ghost use Rattle.recon.specs.Residuals.{block_residual, constructed, luma_residual};

use super::edges::Edges;
use super::modes::Modes;
use super::rect::put_rect;
use super::residual::{add_block, add_luma};
use super::sides::sides_of;
use cb_types::{Levels, Macroblock, block_x, block_y};
use intra_pred::{predict4, predict16};

/// The luma samples of an Intra4x4 macroblock with these edges, None where a mode lacks samples.
pub fn intra4(blocks: &[Levels; 16], modes: &Modes, edges: &Edges, qp: u32) -> Option<[u8; 256]>
    requires levels { All AreLevels blocks.now }
    requires qp { qp ≤ 51 }
    ensures { MatchOption result ((block : ℕ) × (block < 16) × (has_sides edges.now modes.now.0 block ≡ false)) (λ luma.
        ((block : ℕ) → block < 16 → has_sides edges.now modes.now.0 block ≡ true)
        × ((x y : ℕ) → x < 16 → y < 16 → sample_in_rows 16 luma x y ≡ constructed (intra4_sample edges.now modes.now.0 luma x y) (block_residual blocks.now qp x y))) }
{
    let mut luma = [0; 256];
    for block in 0..16 {
        let sides = sides_of(edges, &luma, block);
        let prediction = predict4(
            modes.0[block as usize],
            sides.left,
            sides.top,
            sides.right,
            sides.corner,
        )?;
        let column = block_x(block) as usize;
        let row = block_y(block) as usize;
        put_block(&mut luma, column, row, &prediction);
        let levels = &blocks[block as usize];
        add_block(&mut luma, 16, column, row, levels, None, qp);
    }
    Some(luma)
}

fn put_block(luma: &mut [u8; 256], column: usize, row: usize, block: &[u8; 16])
    requires column { column < 4 }
    requires row { row < 4 }
    ensures { (x y : ℕ) → x < 16 → sample_in_rows 16 luma.new x y ≡ (if (x / 4 == column) && (y / 4 == row) then slice_index block.now (4 * (y % 4) + x % 4) else sample_in_rows 16 luma.old x y) }
{
    put_rect(luma, 16, 4 * column, 4 * row, 4, 4, block);
}

/// The luma samples of an Intra16x16 macroblock with these edges, None where the mode lacks samples.
pub fn intra16(macroblock: &Macroblock, mode: u32, edges: &Edges, qp: u32) -> Option<[u8; 256]>
    requires dc { AreWithin 4096 macroblock.now.luma_dc }
    requires levels { All AreLevels macroblock.now.luma }
    requires qp { qp ≤ 51 }
    ensures { MatchOption result (has_edges edges.now mode ≡ false) (λ luma. (has_edges edges.now mode ≡ true)
        × ((x y : ℕ) → x < 16 → y < 16 → sample_in_rows 16 luma x y ≡ constructed (intra16_sample edges.now mode x y) (luma_residual macroblock.now qp x y))) }
{
    let mut luma = predict16(mode, edges.left, edges.top, edges.corner)?;
    add_luma(&mut luma, macroblock, qp);
    Some(luma)
}
