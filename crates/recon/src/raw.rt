// I_PCM macroblocks. H.264, 8.3.5.
ghost use Rattle.std.specs.Prelude.{◌≡◌, ℕ, ◌+◌, ◌*◌, ◌<◌, slice_index};
ghost use Rattle.vd_plane.specs.Tiles.{tile_cb, tile_cr, tile_y};

use vd_plane::Tile;

/// The samples of an I_PCM macroblock.
pub fn raw_tile(samples: &[u8; 384]) -> Tile
    ensures y { (x y : ℕ) → x < 16 → y < 16 → tile_y result x y ≡ slice_index samples.now (16 * y + x) }
    ensures cb { (x y : ℕ) → x < 8 → y < 8 → tile_cb result x y ≡ slice_index samples.now (256 + 8 * y + x) }
    ensures cr { (x y : ℕ) → x < 8 → y < 8 → tile_cr result x y ≡ slice_index samples.now (320 + 8 * y + x) }
{
    let mut tile = Tile {
        y: [0; 256],
        cb: [0; 64],
        cr: [0; 64],
    };
    tile.y.copy_from_slice(&samples[0..256]);
    tile.cb.copy_from_slice(&samples[256..320]);
    tile.cr.copy_from_slice(&samples[320..384]);
    tile
}
