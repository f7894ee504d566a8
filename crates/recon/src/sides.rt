// The samples beside a 4x4 luma block that intra prediction may use. H.264, 8.3.1.2.
ghost use Rattle.std.specs.Prelude.{◌≡◌, ◌+◌, ◌*◌, ◌<◌, ◌≤◌, [], ◌∷◌, length, slice_index};
ghost use Rattle.recon.specs.Sides.{corner_side, left_side, right_side, sides_of, top_side};

use super::edges::Edges;
use cb_types::{block_x, block_y};

/// The samples beside a 4x4 luma block: the four left of it, the four above it, the four above right of
/// it and the one above and left. None where they aren't available.
#[derive(Clone, Copy)]
pub struct Sides {
    pub left: Option<[u8; 4]>,
    pub top: Option<[u8; 4]>,
    pub right: Option<[u8; 4]>,
    pub corner: Option<u8>,
}

/// The sides of a block of a macroblock with these edges, whose blocks before it have these samples.
#[tactic(auto, unfolding(crate::specs::Sides::sides_of))]
pub fn sides_of(edges: &Edges, luma: &[u8; 256], block: u32) -> Sides
    requires { block < 16 }
    ensures { result ≡ sides_of edges.now luma.now block }
{
    let column = block_x(block) as usize;
    let row = block_y(block) as usize;
    Sides {
        left: left(edges, luma, column, row),
        top: top(edges, luma, column, row),
        right: right(edges, luma, column, row),
        corner: corner(edges, luma, column, row),
    }
}

fn left(edges: &Edges, luma: &[u8; 256], column: usize, row: usize) -> Option<[u8; 4]>
    requires column { column < 4 }
    requires row { row < 4 }
    ensures { result ≡ left_side edges.now luma.now column row }
{
    if column > 0 {
        let at = 64 * row + 4 * column - 1;
        Some([luma[at], luma[at + 16], luma[at + 32], luma[at + 48]])
    } else {
        match &edges.left {
            Some(samples) => Some(four(samples, 4 * row)),
            None => None,
        }
    }
}

fn top(edges: &Edges, luma: &[u8; 256], column: usize, row: usize) -> Option<[u8; 4]>
    requires column { column < 4 }
    requires row { row < 4 }
    ensures { result ≡ top_side edges.now luma.now column row }
{
    if row > 0 {
        Some(four(luma, 64 * row + 4 * column - 16))
    } else {
        match &edges.top {
            Some(samples) => Some(four(samples, 4 * column)),
            None => None,
        }
    }
}

// Above and right of a block stands one of the macroblock above, of the one above right of that, or one
// of the macroblock itself, which may come later.
fn right(edges: &Edges, luma: &[u8; 256], column: usize, row: usize) -> Option<[u8; 4]>
    requires column { column < 4 }
    requires row { row < 4 }
    ensures { result ≡ right_side edges.now luma.now column row }
{
    if row == 0 && column == 3 {
        edges.right
    } else if row == 0 {
        match &edges.top {
            Some(samples) => Some(four(samples, 4 * column + 4)),
            None => None,
        }
    } else if column == 3 || (column % 2 == 1 && row % 2 == 1) {
        None
    } else {
        Some(four(luma, 64 * row + 4 * column - 12))
    }
}

fn corner(edges: &Edges, luma: &[u8; 256], column: usize, row: usize) -> Option<u8>
    requires column { column < 4 }
    requires row { row < 4 }
    ensures { result ≡ corner_side edges.now luma.now column row }
{
    if row > 0 && column > 0 {
        Some(luma[64 * row + 4 * column - 17])
    } else if row > 0 {
        match &edges.left {
            Some(samples) => Some(samples[4 * row - 1]),
            None => None,
        }
    } else if column > 0 {
        match &edges.top {
            Some(samples) => Some(samples[4 * column - 1]),
            None => None,
        }
    } else {
        edges.corner
    }
}

// The four samples from a place on.
fn four(samples: &[u8], at: usize) -> [u8; 4]
    requires { at + 4 ≤ length samples.now }
    ensures { result ≡ slice_index samples.now at ∷ slice_index samples.now (at + 1) ∷ slice_index samples.now (at + 2) ∷ slice_index samples.now (at + 3) ∷ [] }
{
    [
        samples[at],
        samples[at + 1],
        samples[at + 2],
        samples[at + 3],
    ]
}
