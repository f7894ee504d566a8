// The partitions of inter predicted macroblocks.
ghost use Rattle.std.specs.Prelude.{◌≡◌, ◌<◌, ◌≤◌};
ghost use Rattle.cb_types.specs.Blocks.{block_at};
ghost use Rattle.motion.specs.Partitions.{IsPlaced, first_block, partition_of, sub_partition, tall, wide};

use cb_types::{MbKind, Part, Sub, Vector};

/// A partition of an inter predicted macroblock, or of a sub-macroblock (H.264, 6.4.2).
///
/// Its place in the macroblock and its sides are counted in 4x4 luma blocks. `shape` and `index` say how
/// its vector is predicted: 1 for the parts of 16x8 and 2 for those of 8x16, which are numbered 0 and 1,
/// and 0 for the others. `reference` is its entry of the reference list, `delta` its vector difference.
#[derive(Clone, Copy, Debug, PartialEq, Eq)]
pub struct Partition {
    pub column: u32,
    pub row: u32,
    pub width: u32,
    pub height: u32,
    pub shape: u32,
    pub index: u32,
    pub reference: u32,
    pub delta: Vector,
}

impl Partition {
    /// The number of its first block, the one above and left.
    #[inline]
    pub fn first_block(&self) -> u32
        requires column { self.now.column < 4 }
        requires row { self.now.row < 4 }
        ensures block { result ≡ first_block self.now }
        ensures few { result < 16 }
    {
        block_at(self.column, self.row)
    }
}

/// The number of the 4x4 luma block at a column and a row of its macroblock (H.264, 6.4.3).
#[inline]
pub fn block_at(column: u32, row: u32) -> u32
    requires column { column < 4 }
    requires row { row < 4 }
    ensures block { result ≡ block_at column row }
    ensures few { result < 16 }
{
    8 * (row / 2) + 4 * (column / 2) + 2 * (row % 2) + column % 2
}

/// The partition that has the 4x4 luma block of this number. A skipped macroblock is one partition with
/// reference 0 (H.264, 8.4.1.1).
#[tactic(auto, unfolding(crate::specs::Partitions::partition_of))]
pub fn partition_of(kind: &MbKind, block: u32) -> Partition
    requires { block < 16 }
    ensures partition { result ≡ partition_of kind.now block }
    ensures placed { IsPlaced result }
{
    match kind {
        MbKind::Whole(part, _) => Partition {
            reference: part.reference,
            delta: part.delta,
            ..WHOLE
        },
        MbKind::Wide(parts, _) => wide(&parts[(block / 8) as usize], block / 8),
        MbKind::Tall(parts, _) => tall(&parts[(block / 4 % 2) as usize], block / 4 % 2),
        MbKind::Four(subs, _) | MbKind::FourFirst(subs, _) => {
            sub_partition(&subs[(block / 4) as usize], block)
        }
        _ => WHOLE,
    }
}

const WHOLE: Partition = Partition {
    column: 0,
    row: 0,
    width: 4,
    height: 4,
    shape: 0,
    index: 0,
    reference: 0,
    delta: Vector { x: 0, y: 0 },
};

fn wide(part: &Part, index: u32) -> Partition
    requires { index ≤ 1 }
    ensures { result ≡ wide part.now index }
{
    Partition {
        column: 0,
        row: 2 * index,
        width: 4,
        height: 2,
        shape: 1,
        index,
        reference: part.reference,
        delta: part.delta,
    }
}

fn tall(part: &Part, index: u32) -> Partition
    requires { index ≤ 1 }
    ensures { result ≡ tall part.now index }
{
    Partition {
        column: 2 * index,
        row: 0,
        width: 2,
        height: 4,
        shape: 2,
        index,
        reference: part.reference,
        delta: part.delta,
    }
}

// The partition of a sub-macroblock that has this block.
fn sub_partition(sub: &Sub, block: u32) -> Partition
    requires { block < 16 }
    ensures partition { result ≡ sub_partition sub.now block }
    ensures placed { IsPlaced result }
{
    let (width, height, index, across, down) = match sub.kind {
        0 => (2, 2, 0, 0, 0),
        1 => (2, 1, block / 2 % 2, 0, block / 2 % 2),
        2 => (1, 2, block % 2, block % 2, 0),
        _ => (1, 1, block % 4, block % 2, block / 2 % 2),
    };
    Partition {
        column: 2 * (block / 4 % 2) + across,
        row: 2 * (block / 8) + down,
        width,
        height,
        shape: 0,
        index: 0,
        reference: sub.reference,
        delta: sub.deltas[index as usize],
    }
}
