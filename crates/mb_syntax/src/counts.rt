// How many levels the blocks of macroblocks have, and nC (H.264, 9.2.1).
ghost use Rattle.std.specs.Prelude.{◌≡◌, ◌+◌, ◌<◌, ◌≤◌, ◌^◌, ℕ, ℤ, List, [], ◌∷◌, ◌++◌, length, option_map, pos, slice_index};
ghost use Rattle.cb_types.specs.Blocks.{block_at};
ghost use Rattle.cb_types.specs.declared.macroblock.Macroblock.{Macroblock};
ghost use Rattle.mb_syntax.specs.Around.{AreColumns, IsAround, IsChromaSoFar, IsCountOf, IsLumaSoFar, chroma_counts};
ghost use Rattle.mb_syntax.specs.Counts.{chroma_nc, luma_nc, mean};
ghost use Rattle.mb_syntax.specs.declared.slice.Slice.{Slice};

use super::slice::Slice;
use cb_types::{block_x, block_y};

/// What the blocks of a macroblock count for nC: TotalCoeff of each luma block and of each AC block of Cb
/// and Cr, or 16 each in I_PCM.
#[derive(Clone, Copy)]
pub struct Counts {
    pub luma: [u8; 16],
    pub cb: [u8; 4],
    pub cr: [u8; 4],
}

impl Counts {
    pub const NONE: Counts = Counts {
        luma: [0; 16],
        cb: [0; 4],
        cr: [0; 4],
    };

    pub const PCM: Counts = Counts {
        luma: [16; 16],
        cb: [16; 4],
        cr: [16; 4],
    };
}

/// The counts of the macroblocks to the left and above, where they are of the slice.
#[derive(Clone, Copy)]
pub struct Around {
    pub left: Option<Counts>,
    pub above: Option<Counts>,
}

/// By column, the counts of the slice's last macroblock there.
#[derive(Drop)]
pub struct Columns {
    counts: [Counts; 256],
}

impl Columns {
    pub fn new() -> Columns
        ensures { (slice : Slice) → AreColumns slice [] result }
    {
        Columns {
            counts: [Counts::NONE; 256],
        }
    }

    /// What lies beside the macroblock that is so many behind the slice's first.
    pub fn around(&self, slice: &Slice, behind: u32) -> Around
        requires some { 1 ≤ slice.now.width }
        requires few { slice.now.width ≤ 256 }
        requires fits { slice.now.first + behind < 2 ^ 32 }
        ensures { (before : List Macroblock) → length before ≡ behind → AreColumns slice.now before self.now → IsAround slice.now before result }
    {
        let column = (slice.first + behind) % slice.width;
        Around {
            left: if column > 0 && behind > 0 {
                Some(self.counts[(column - 1) as usize])
            } else {
                None
            },
            above: if behind >= slice.width {
                Some(self.counts[column as usize])
            } else {
                None
            },
        }
    }

    /// Keeps the counts of the macroblock that is so many behind the slice's first.
    pub fn keep(&mut self, slice: &Slice, behind: u32, counts: Counts)
        requires some { 1 ≤ slice.now.width }
        requires few { slice.now.width ≤ 256 }
        requires fits { slice.now.first + behind < 2 ^ 32 }
        ensures { (before : List Macroblock) (mb : Macroblock) → length before ≡ behind → AreColumns slice.now before self.old → IsCountOf counts mb →
            AreColumns slice.now (before ++ mb ∷ []) self.new }
    {
        self.counts[((slice.first + behind) % slice.width) as usize] = counts;
    }
}

impl Around {
    /// nC of a luma block, from the counts of the macroblock's blocks before it.
    pub fn luma_nc(&self, counts: &[u8; 16], block: u32) -> i32
        requires { block < 16 }
        ensures { (slice : Slice) (before : List Macroblock) (blocks : List (List ℤ)) → IsAround slice before self.now → IsLumaSoFar blocks counts.now block →
            result ≡ luma_nc slice before blocks block }
    {
        let (x, y) = (block_x(block), block_y(block));
        let left = if x == 0 {
            luma_count(&self.left, block_at(3, y))
        } else {
            Some(counts[block_at(x - 1, y) as usize])
        };
        let above = if y == 0 {
            luma_count(&self.above, block_at(x, 3))
        } else {
            Some(counts[block_at(x, y - 1) as usize])
        };
        mean(left, above)
    }

    /// nC of an AC block of Cb (plane 0) or Cr (plane 1), from the counts of the plane's blocks before it.
    pub fn chroma_nc(&self, counts: &[u8; 4], plane: usize, block: u32) -> i32
        requires plane { plane < 2 }
        requires block { block < 4 }
        ensures { (slice : Slice) (before : List Macroblock) (blocks : List (List ℤ)) → IsAround slice before self.now → IsChromaSoFar blocks plane counts.now block →
            result ≡ chroma_nc slice before blocks plane block }
    {
        let left = if block % 2 == 0 {
            chroma_count(&self.left, plane, block + 1)
        } else {
            Some(counts[(block - 1) as usize])
        };
        let above = if block < 2 {
            chroma_count(&self.above, plane, block + 2)
        } else {
            Some(counts[(block - 2) as usize])
        };
        mean(left, above)
    }
}

#[inline]
fn luma_count(counts: &Option<Counts>, block: u32) -> Option<u8>
    requires { block < 16 }
    ensures { result ≡ option_map (λ counts. slice_index counts.luma block) counts.now }
{
    match counts {
        Some(counts) => Some(counts.luma[block as usize]),
        None => None,
    }
}

#[inline]
fn chroma_count(counts: &Option<Counts>, plane: usize, block: u32) -> Option<u8>
    requires { block < 4 }
    ensures { result ≡ option_map (λ counts. slice_index (chroma_counts counts plane) block) counts.now }
{
    match counts {
        Some(counts) if plane == 0 => Some(counts.cb[block as usize]),
        Some(counts) => Some(counts.cr[block as usize]),
        None => None,
    }
}

// The number of the luma block at a column and row of its macroblock.
#[inline]
fn block_at(column: u32, row: u32) -> u32
    requires column { column < 4 }
    requires row { row < 4 }
    ensures block { result ≡ block_at column row }
    ensures few { result < 16 }
{
    8 * (row / 2) + 4 * (column / 2) + 2 * (row % 2) + column % 2
}

#[inline]
fn mean(left: Option<u8>, above: Option<u8>) -> i32
    ensures { result ≡ pos (mean left above) }
{
    match (left, above) {
        (Some(left), Some(above)) => (i32::from(left) + i32::from(above) + 1) / 2,
        (Some(left), None) => i32::from(left),
        (None, Some(above)) => i32::from(above),
        (None, None) => 0,
    }
}
