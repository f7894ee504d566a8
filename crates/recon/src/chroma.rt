// Intra predicted chroma. H.264, 8.3.4.
ghost use Rattle.std.specs.Prelude.{◌≡◌, ℕ, ◌<◌, ◌≤◌, All, false, true, MatchOption};
ghost use Rattle.int_transform.specs.Bounds.{AreWithin};
ghost use Rattle.vd_plane.specs.Tiles.{sample_in_rows};
ghost use Rattle.recon.specs.Conditions.{AreLevels};
ghost use Rattle.recon.specs.Intra.{has_chroma_edges, intra_chroma_sample};
ghost use Rattle.recon.specs.Residuals.{chroma_residual, constructed};

use super::edges::ChromaEdges;
use super::residual::add_chroma;
use cb_types::{DcLevels, Levels};
use intra_pred::predict_chroma;

/// The samples of Cb or Cr of an intra macroblock with these edges, None where the mode lacks samples.
pub fn intra_chroma(
    mode: u32,
    edges: &ChromaEdges,
    dc: &DcLevels,
    blocks: &[Levels; 4],
    qp: u32,
) -> Option<[u8; 64]>
    requires dc { AreWithin 4096 dc.now.0 }
    requires levels { All AreLevels blocks.now }
    requires qp { qp ≤ 51 }
    ensures { MatchOption result (has_chroma_edges edges.now mode ≡ false) (λ samples. (has_chroma_edges edges.now mode ≡ true)
        × ((x y : ℕ) → x < 8 → y < 8 → sample_in_rows 8 samples x y ≡ constructed (intra_chroma_sample edges.now mode x y) (chroma_residual dc.now blocks.now qp x y))) }
{
    let mut samples = predict_chroma(mode, edges.left, edges.top, edges.corner)?;
    add_chroma(&mut samples, dc, blocks, qp);
    Some(samples)
}
