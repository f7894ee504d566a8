// Where macroblocks and luma blocks lie, and what lies beside them.
ghost use Rattle.std.specs.Prelude.{◌≡◌, ◌<◌, ◌+◌, ◌≤◌, ◌^◌};
ghost use Rattle.cb_types.specs.SizeMbs.{macroblocks, IsWithinLimits};
ghost use Rattle.cb_types.specs.Neighbours.{neighbour, neighbour_a, neighbour_b, neighbour_c, neighbour_d};
ghost use Rattle.cb_types.specs.Blocks.{block_column, block_row};

use super::size::SizeMbs;

/// The column in its macroblock, in blocks, of the 4x4 luma block with this number (H.264, 6.4.3).
#[inline]
pub fn block_x(block: u32) -> u32
    requires { block < 16 }
    ensures { result ≡ block_column block }
{
    2 * (block / 4 % 2) + block % 2
}

/// The row in its macroblock, in blocks, of the 4x4 luma block with this number (H.264, 6.4.3).
#[inline]
pub fn block_y(block: u32) -> u32
    requires { block < 16 }
    ensures { result ≡ block_row block }
{
    2 * (block / 8) + block / 2 % 2
}

/// The address of the macroblock beside one (H.264, 6.4.9), by place alone: `which` is 0 for A (left), 1
/// for B (above), 2 for C (above right) and 3 for D (above left).
#[inline]
pub fn beside(size: SizeMbs, macroblock: u32, which: u32) -> Option<u32>
    requires size { IsWithinLimits size }
    requires inside { macroblock < macroblocks size }
    requires which { which < 4 }
    ensures { result ≡ neighbour size.width macroblock which }
{
    match which {
        0 => left(size.width, macroblock),
        1 => above(size.width, macroblock),
        2 => above_right(size.width, macroblock),
        _ => above_left(size.width, macroblock),
    }
}

#[inline]
fn left(width: u32, macroblock: u32) -> Option<u32>
    requires { 1 ≤ width }
    ensures { result ≡ neighbour_a width macroblock }
{
    if macroblock % width > 0 {
        Some(macroblock - 1)
    } else {
        None
    }
}

#[inline]
fn above(width: u32, macroblock: u32) -> Option<u32>
    ensures { result ≡ neighbour_b width macroblock }
{
    if width <= macroblock {
        Some(macroblock - width)
    } else {
        None
    }
}

#[inline]
fn above_right(width: u32, macroblock: u32) -> Option<u32>
    requires some { 1 ≤ width }
    requires inside { macroblock + 1 < 2 ^ 32 }
    ensures { result ≡ neighbour_c width macroblock }
{
    if width <= macroblock && (macroblock + 1) % width > 0 {
        Some(macroblock - width + 1)
    } else {
        None
    }
}

#[inline]
fn above_left(width: u32, macroblock: u32) -> Option<u32>
    requires { 1 ≤ width }
    ensures { result ≡ neighbour_d width macroblock }
{
    if width <= macroblock && macroblock % width > 0 {
        Some(macroblock - width - 1)
    } else {
        None
    }
}
