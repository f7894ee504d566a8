// The constructed samples beside a macroblock that intra prediction may use.
ghost use Rattle.std.specs.Prelude.{◌≡◌, ℕ, ◌<◌, length, option_map};
ghost use Rattle.std.specs.Option.{ForSome};
ghost use Rattle.motion.specs.Around.{AreBefore};
ghost use Rattle.vd_plane.specs.Tiles.{sample_in_rows, tile_at};
ghost use Rattle.recon.specs.Edges.{cb_edges, cr_edges, in_column, in_row, luma_edges};

use motion::Around;
use vd_plane::Tile;

/// The luma samples beside a macroblock (H.264, 8.3.3): those left of it from the top, those above it from
/// the left, the four above right of it and the one above and left. None where they aren't available.
#[derive(Clone, Copy)]
pub struct Edges {
    pub left: Option<[u8; 16]>,
    pub top: Option<[u8; 16]>,
    pub right: Option<[u8; 4]>,
    pub corner: Option<u8>,
}

/// The samples of one chroma array beside a macroblock (H.264, 8.3.4).
#[derive(Clone, Copy)]
pub struct ChromaEdges {
    pub left: Option<[u8; 8]>,
    pub top: Option<[u8; 8]>,
    pub corner: Option<u8>,
}

/// The luma edges of a macroblock with these neighbours.
#[tactic(auto, unfolding(crate::specs::Edges::luma_edges))]
pub fn luma_edges(tiles: &[Tile], around: &Around) -> Edges
    requires { AreBefore (length tiles.now) around.now }
    ensures { result ≡ luma_edges tiles.now around.now }
{
    Edges {
        left: match around.left {
            Some(k) => Some(last_column(&tiles[k as usize].y)),
            None => None,
        },
        top: match around.above {
            Some(k) => Some(last_row(&tiles[k as usize].y)),
            None => None,
        },
        right: match around.above_right {
            Some(k) => Some(first_four(&tiles[k as usize].y)),
            None => None,
        },
        corner: match around.above_left {
            Some(k) => Some(tiles[k as usize].y[255]),
            None => None,
        },
    }
}

fn last_column(y: &[u8; 256]) -> [u8; 16]
    ensures { result ≡ in_column (sample_in_rows 16 y.now) 15 16 }
{
    [
        y[15], y[31], y[47], y[63], y[79], y[95], y[111], y[127], y[143], y[159], y[175], y[191],
        y[207], y[223], y[239], y[255],
    ]
}

fn last_row(y: &[u8; 256]) -> [u8; 16]
    ensures { result ≡ in_row (sample_in_rows 16 y.now) 15 16 }
{
    [
        y[240], y[241], y[242], y[243], y[244], y[245], y[246], y[247], y[248], y[249], y[250],
        y[251], y[252], y[253], y[254], y[255],
    ]
}

fn first_four(y: &[u8; 256]) -> [u8; 4]
    ensures { result ≡ in_row (sample_in_rows 16 y.now) 15 4 }
{
    [y[240], y[241], y[242], y[243]]
}

/// The edges of Cb.
#[tactic(auto, unfolding(crate::specs::Edges::cb_edges))]
pub fn cb_edges(tiles: &[Tile], around: &Around) -> ChromaEdges
    requires { AreBefore (length tiles.now) around.now }
    ensures { result ≡ cb_edges tiles.now around.now }
{
    ChromaEdges {
        left: match around.left {
            Some(k) => Some(last_chroma_column(&tiles[k as usize].cb)),
            None => None,
        },
        top: match around.above {
            Some(k) => Some(last_chroma_row(&tiles[k as usize].cb)),
            None => None,
        },
        corner: match around.above_left {
            Some(k) => Some(tiles[k as usize].cb[63]),
            None => None,
        },
    }
}

/// The edges of Cr.
#[tactic(auto, unfolding(crate::specs::Edges::cr_edges))]
pub fn cr_edges(tiles: &[Tile], around: &Around) -> ChromaEdges
    requires { AreBefore (length tiles.now) around.now }
    ensures { result ≡ cr_edges tiles.now around.now }
{
    ChromaEdges {
        left: match around.left {
            Some(k) => Some(last_chroma_column(&tiles[k as usize].cr)),
            None => None,
        },
        top: match around.above {
            Some(k) => Some(last_chroma_row(&tiles[k as usize].cr)),
            None => None,
        },
        corner: match around.above_left {
            Some(k) => Some(tiles[k as usize].cr[63]),
            None => None,
        },
    }
}

fn last_chroma_column(samples: &[u8; 64]) -> [u8; 8]
    ensures { result ≡ in_column (sample_in_rows 8 samples.now) 7 8 }
{
    [
        samples[7],
        samples[15],
        samples[23],
        samples[31],
        samples[39],
        samples[47],
        samples[55],
        samples[63],
    ]
}

fn last_chroma_row(samples: &[u8; 64]) -> [u8; 8]
    ensures { result ≡ in_row (sample_in_rows 8 samples.now) 7 8 }
{
    [
        samples[56],
        samples[57],
        samples[58],
        samples[59],
        samples[60],
        samples[61],
        samples[62],
        samples[63],
    ]
}
