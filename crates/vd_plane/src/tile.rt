// The samples of single macroblocks.
ghost use Rattle.std.specs.Prelude.{◌≡◌, ℕ, ◌*◌, ◌<◌, ◌≤◌, ◌/◌, ◌%◌, length};
ghost use Rattle.vd_plane.specs.SampleArray.{IsInside, SameSides, sample};
ghost use Rattle.vd_plane.specs.Picture.{SameSize};
ghost use Rattle.vd_plane.specs.Tiles.{ShowsTiles, macroblock_at, tile_at, tile_cb, tile_cr, tile_y};

use crate::picture::Picture;
use crate::plane::Plane;

/// The samples of one macroblock (H.264, 6.4.1): 16 rows of 16 luma samples, and 8 rows of 8 samples of
/// Cb and of Cr, each row from the left and the rows from the top.
#[derive(Clone, Copy, Debug, PartialEq, Eq)]
pub struct Tile {
    pub y: [u8; 256],
    pub cb: [u8; 64],
    pub cr: [u8; 64],
}

/// Writes the samples of a picture that is `width_mbs` macroblocks wide from one tile for each of its
/// macroblocks, in the order of their addresses.
pub fn place_tiles(tiles: &[Tile], width_mbs: u32, picture: &mut Picture)
    requires some_column { 1 ≤ width_mbs }
    requires columns { width_mbs ≤ 256 }
    requires width { picture.old.y.width ≡ 16 * width_mbs }
    requires count { length tiles.now ≡ picture.old.y.height / 16 * width_mbs }
    ensures size { SameSize picture.old picture.new }
    ensures samples { ShowsTiles tiles.now width_mbs picture.new }
{
    let width = width_mbs as usize;
    let rows = picture.y.height() as usize / 16;
    place_y(tiles, width, rows, &mut picture.y);
    place_cb(tiles, width, rows, &mut picture.cb);
    place_cr(tiles, width, rows, &mut picture.cr);
}

fn place_y(tiles: &[Tile], width: usize, rows: usize, plane: &mut Plane)
    requires some_column { 1 ≤ width }
    requires columns { width ≤ 256 }
    requires width { plane.old.width ≡ 16 * width }
    requires rows { rows ≤ 256 }
    requires height { plane.old.height ≡ 16 * rows }
    requires count { length tiles.now ≡ rows * width }
    ensures sides { SameSides plane.old plane.new }
    ensures samples { (x y : ℕ) → IsInside plane.new x y → sample plane.new x y ≡ tile_y (tile_at tiles.now (macroblock_at 16 width x y)) (x % 16) (y % 16) }
{
    for (m, tile) in tiles.iter().enumerate() {
        let x = 16 * (m % width) as u32;
        let y = 16 * (m / width) as u32;
        plane.put_rect(x, y, 16, 16, &tile.y);
    }
}

fn place_cb(tiles: &[Tile], width: usize, rows: usize, plane: &mut Plane)
    requires some_column { 1 ≤ width }
    requires columns { width ≤ 256 }
    requires width { plane.old.width ≡ 8 * width }
    requires rows { rows ≤ 256 }
    requires height { plane.old.height ≡ 8 * rows }
    requires count { length tiles.now ≡ rows * width }
    ensures sides { SameSides plane.old plane.new }
    ensures samples { (x y : ℕ) → IsInside plane.new x y → sample plane.new x y ≡ tile_cb (tile_at tiles.now (macroblock_at 8 width x y)) (x % 8) (y % 8) }
{
    for (m, tile) in tiles.iter().enumerate() {
        let x = 8 * (m % width) as u32;
        let y = 8 * (m / width) as u32;
        plane.put_rect(x, y, 8, 8, &tile.cb);
    }
}

fn place_cr(tiles: &[Tile], width: usize, rows: usize, plane: &mut Plane)
    requires some_column { 1 ≤ width }
    requires columns { width ≤ 256 }
    requires width { plane.old.width ≡ 8 * width }
    requires rows { rows ≤ 256 }
    requires height { plane.old.height ≡ 8 * rows }
    requires count { length tiles.now ≡ rows * width }
    ensures sides { SameSides plane.old plane.new }
    ensures samples { (x y : ℕ) → IsInside plane.new x y → sample plane.new x y ≡ tile_cr (tile_at tiles.now (macroblock_at 8 width x y)) (x % 8) (y % 8) }
{
    for (m, tile) in tiles.iter().enumerate() {
        let x = 8 * (m % width) as u32;
        let y = 8 * (m / width) as u32;
        plane.put_rect(x, y, 8, 8, &tile.cr);
    }
}
