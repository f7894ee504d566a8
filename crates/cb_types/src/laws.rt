// What follows from where macroblocks and blocks lie.
ghost use Rattle.std.specs.Prelude.{◌≡◌, ◌+◌, ◌-◌, ◌<◌, ◌≤◌, ◌%◌, ◌/◌, ◌⊎◌, MatchOption};
ghost use Rattle.cb_types.specs.Neighbours.{neighbour_a, neighbour_b, neighbour_c, neighbour_d, LiesAt};
ghost use Rattle.cb_types.specs.Blocks.{block_at, block_column, block_row};

/// The neighbours of a macroblock lie where their names say, and one is missing exactly where its place
/// is outside the picture, which is so many macroblocks wide (H.264, 6.4.9).
pub fn neighbours_stand_beside(width: u32, mb: u32)
    requires { 1 ≤ width }
    ensures a { MatchOption (neighbour_a width mb) (mb % width ≡ 0) (λ a. (1 ≤ mb % width) × LiesAt width a (mb % width - 1) (mb / width)) }
    ensures b { MatchOption (neighbour_b width mb) (mb / width ≡ 0) (λ b. (1 ≤ mb / width) × LiesAt width b (mb % width) (mb / width - 1)) }
    ensures c { MatchOption (neighbour_c width mb) ((mb / width ≡ 0) ⊎ (mb % width + 1 ≡ width)) (λ c.
        (1 ≤ mb / width) × (mb % width + 1 < width) × LiesAt width c (mb % width + 1) (mb / width - 1)) }
    ensures d { MatchOption (neighbour_d width mb) ((mb / width ≡ 0) ⊎ (mb % width ≡ 0)) (λ d.
        (1 ≤ mb / width) × (1 ≤ mb % width) × LiesAt width d (mb % width - 1) (mb / width - 1)) }
{
    let _here = (width, mb);
}

/// Each number of a luma block has its place in the macroblock, and each place its number (H.264, 6.4.3).
pub fn blocks_have_places(block: u32, column: u32, row: u32)
    requires block { block < 16 }
    requires column { column < 4 }
    requires row { row < 4 }
    ensures block { block_at (block_column block) (block_row block) ≡ block }
    ensures column { block_column (block_at column row) ≡ column }
    ensures row { block_row (block_at column row) ≡ row }
{
    let _here = (block, column, row);
}
