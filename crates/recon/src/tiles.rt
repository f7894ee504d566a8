// The constructed samples of one macroblock.
ghost use Rattle.std.specs.Prelude.{◌≡◌, ℕ, ◌+◌, ◌<◌, ◌≤◌, ◌⊎◌, IfSome, MatchOption, false, length};
ghost use Rattle.motion.specs.Around.{AreBefore};
ghost use Rattle.motion.specs.Border.{vector_at};
ghost use Rattle.motion.specs.Kinds.{is_intra};
ghost use Rattle.motion.specs.Vectors.{AreShared, IsWithinBounds};
ghost use Rattle.vd_plane.specs.Tiles.{tile_cb, tile_cr, tile_y};
ghost use Rattle.recon.specs.Conditions.{IsMacroblockRange, IsSlice};
ghost use Rattle.recon.specs.Edges.{cb_edges};
ghost use Rattle.recon.specs.Intra.{has_chroma_edges};
ghost use Rattle.recon.specs.IntraTiles.{IsIntraChroma};
ghost use Rattle.recon.specs.Inputs.{slice_in};
ghost use Rattle.recon.specs.Laws.{IsWholeTile};
ghost use Rattle.recon.specs.Rebuilt.{HasPictures, HasSamples, IsTile, LacksPicture, LacksSamples, luma_qp_at, modes_at, usable_at};
ghost use Rattle.recon.specs.Inter.{inter_cb, inter_cr, inter_luma};
ghost use Rattle.recon.specs.Residuals.{chroma_of, chroma_residual, constructed, dc_of, luma_residual};
ghost use Rattle.recon.specs.Slice.{kind_at, macroblock};

use super::chroma::intra_chroma;
use super::edges::{cb_edges, cr_edges, luma_edges};
use super::inputs::Inputs;
use super::inter_samples::inter;
use super::intra::{intra4, intra16};
use super::modes::Modes;
use super::quantizer::chroma_qp_of;
use super::raw::raw_tile;
use super::residual::{add_chroma, add_luma};
use cb_types::{Macroblock, MbKind, Vector};
use motion::Around;
use vd_plane::Tile;

/// The samples of a macroblock, from its QP, the modes of its blocks, the neighbours that intra prediction
/// may use, its vectors, and the tiles of the macroblocks before it. None where samples or references that
/// it needs are missing.
pub fn tile_of(
    inputs: &Inputs,
    number: u32,
    qp: u32,
    modes: &Modes,
    usable: &Around,
    vectors: &[Vector; 16],
    tiles: &[Tile],
) -> Option<Tile>
    requires slice { IsSlice (slice_in inputs.now) (number + 1) }
    requires macroblock { number < length inputs.now.macroblocks.now }
    requires tiles { AreBefore (length tiles.now) usable.now }
    requires qp { qp ≡ luma_qp_at (slice_in inputs.now) number }
    requires few { qp ≤ 51 }
    requires modes { modes.now.0 ≡ modes_at (slice_in inputs.now) number }
    requires usable { usable.now ≡ usable_at (slice_in inputs.now) number }
    requires vectors { (block : ℕ) → block < 16 → IsWithinBounds (vector_at vectors.now block) }
    requires shared { AreShared (kind_at (slice_in inputs.now) number) vectors.now }
    ensures tile { MatchOption result
        (LacksPicture (slice_in inputs.now) (kind_at (slice_in inputs.now) number) ⊎ LacksSamples (slice_in inputs.now) number tiles.now (kind_at (slice_in inputs.now) number))
        (λ tile. HasPictures (slice_in inputs.now) (kind_at (slice_in inputs.now) number)
        × HasSamples (slice_in inputs.now) number tiles.now (kind_at (slice_in inputs.now) number)
        × IsTile (slice_in inputs.now) number vectors.now tiles.now tile) }
    ensures whole { IfSome result IsWholeTile }
{
    let macroblock = &inputs.macroblocks[number as usize];
    let qpc = chroma_qp_of(inputs.info, qp);
    match &macroblock.kind {
        MbKind::Pcm(samples) => Some(raw_tile(samples)),
        MbKind::Intra4 { chroma, .. } => {
            let y = intra4(&macroblock.luma, modes, &luma_edges(tiles, usable), qp)?;
            with_chroma(macroblock, y, *chroma, usable, tiles, qpc)
        }
        MbKind::Intra16 { mode, chroma, .. } => {
            let y = intra16(macroblock, *mode, &luma_edges(tiles, usable), qp)?;
            with_chroma(macroblock, y, *chroma, usable, tiles, qpc)
        }
        _ => inter_tile(inputs, number, qp, qpc, vectors),
    }
}

// The tile of an inter macroblock.
fn inter_tile(
    inputs: &Inputs,
    number: u32,
    qp: u32,
    qpc: u32,
    vectors: &[Vector; 16],
) -> Option<Tile>
    requires slice { IsSlice (slice_in inputs.now) (number + 1) }
    requires macroblock { number < length inputs.now.macroblocks.now }
    requires inter { is_intra (kind_at (slice_in inputs.now) number) ≡ false }
    requires qp { qp ≤ 51 }
    requires qpc { qpc ≤ 51 }
    requires vectors { (block : ℕ) → block < 16 → IsWithinBounds (vector_at vectors.now block) }
    requires shared { AreShared (kind_at (slice_in inputs.now) number) vectors.now }
    ensures { MatchOption result (LacksPicture (slice_in inputs.now) (kind_at (slice_in inputs.now) number)) (λ tile.
        HasPictures (slice_in inputs.now) (kind_at (slice_in inputs.now) number)
        × ((x y : ℕ) → x < 16 → y < 16 → tile_y tile x y ≡ constructed (inter_luma (slice_in inputs.now) number vectors.now x y) (luma_residual (macroblock (slice_in inputs.now) number) qp x y))
        × ((x y : ℕ) → x < 8 → y < 8 → tile_cb tile x y ≡ constructed (inter_cb (slice_in inputs.now) number vectors.now x y) (chroma_residual (dc_of (macroblock (slice_in inputs.now) number) 0) (chroma_of (macroblock (slice_in inputs.now) number) 0) qpc x y))
        × ((x y : ℕ) → x < 8 → y < 8 → tile_cr tile x y ≡ constructed (inter_cr (slice_in inputs.now) number vectors.now x y) (chroma_residual (dc_of (macroblock (slice_in inputs.now) number) 1) (chroma_of (macroblock (slice_in inputs.now) number) 1) qpc x y))) }
{
    let macroblock = &inputs.macroblocks[number as usize];
    let mut tile = inter(inputs, number, vectors)?;
    add_luma(&mut tile.y, macroblock, qp);
    add_chroma(
        &mut tile.cb,
        &macroblock.chroma_dc[0],
        &macroblock.chroma[0].0,
        qpc,
    );
    add_chroma(
        &mut tile.cr,
        &macroblock.chroma_dc[1],
        &macroblock.chroma[1].0,
        qpc,
    );
    Some(tile)
}

// The tile of an intra macroblock with this luma.
fn with_chroma(
    macroblock: &Macroblock,
    y: [u8; 256],
    mode: u32,
    usable: &Around,
    tiles: &[Tile],
    qpc: u32,
) -> Option<Tile>
    requires macroblock { IsMacroblockRange macroblock.now }
    requires tiles { AreBefore (length tiles.now) usable.now }
    requires qpc { qpc ≤ 51 }
    ensures { MatchOption result (has_chroma_edges (cb_edges tiles.now usable.now) mode ≡ false) (λ tile. IsIntraChroma macroblock.now tiles.now usable.now qpc mode tile × (tile.y ≡ y)) }
{
    let cb = intra_chroma(
        mode,
        &cb_edges(tiles, usable),
        &macroblock.chroma_dc[0],
        &macroblock.chroma[0].0,
        qpc,
    )?;
    let cr = intra_chroma(
        mode,
        &cr_edges(tiles, usable),
        &macroblock.chroma_dc[1],
        &macroblock.chroma[1].0,
        qpc,
    )?;
    Some(Tile { y, cb, cr })
}
