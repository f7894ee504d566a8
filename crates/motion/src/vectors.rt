// The vectors of a macroblock's blocks.
ghost use Rattle.std.specs.Prelude.{◌≡◌, ◌<◌, ◌≤◌, ◌≤ℤ◌, ◌+ℤ◌, pos, MatchOption, false};
ghost use Rattle.motion.specs.Kinds.{is_intra};
ghost use Rattle.motion.specs.Partitions.{IsPlaced};
ghost use Rattle.motion.specs.Vectors.{AreVectors, IsBetween, IsWithinBounds, LeavesBounds, above, near_at, own, prediction, sum_of, vector_of};

use super::border::Border;
use super::kinds::{is_intra, is_skip};
use super::partition::{Partition, block_at, partition_of};
use cb_types::{MbKind, Vector};
use mv_pred::{Near, predict, skip};

const ZERO: Vector = Vector { x: 0, y: 0 };

/// The vectors of the 4x4 luma blocks of a macroblock with this border (H.264, 8.4.1), None where one is
/// outside the bounds: -8192 to 8191 across and -2048 to 2047 down, in quarter samples. Intra macroblocks
/// have vectors of 0.
pub fn vectors_of(border: &Border, kind: &MbKind) -> Option<[Vector; 16]>
    ensures { MatchOption result (LeavesBounds border.now kind.now) (λ vectors. AreVectors border.now kind.now 16 vectors) }
{
    let mut vectors = [ZERO; 16];
    if is_intra(kind) {
        return Some(vectors);
    }
    for block in 0..16 {
        let first = partition_of(kind, block).first_block();
        vectors[block as usize] = if first < block {
            vectors[first as usize]
        } else {
            vector_of(border, kind, &vectors, block)?
        };
    }
    Some(vectors)
}

// The vector of a block, from those of the blocks before it.
#[tactic(auto, unfolding(crate::specs::Vectors::vector_of))]
fn vector_of(border: &Border, kind: &MbKind, vectors: &[Vector; 16], block: u32) -> Option<Vector>
    requires block { block < 16 }
    requires inter { is_intra kind.now ≡ false }
    ensures { MatchOption result (¬ IsWithinBounds (vector_of border.now kind.now vectors.now block)) (λ vector. (vector ≡ vector_of border.now kind.now vectors.now block) × IsWithinBounds vector) }
{
    let partition = partition_of(kind, block);
    moved(
        prediction(border, kind, vectors, &partition),
        partition.delta,
    )
}

#[tactic(auto, unfolding(crate::specs::Vectors::prediction))]
fn prediction(
    border: &Border,
    kind: &MbKind,
    vectors: &[Vector; 16],
    partition: &Partition,
) -> Vector
    requires { IsPlaced partition.now }
    ensures { result ≡ prediction border.now kind.now vectors.now partition.now }
{
    let column = partition.column;
    let row = partition.row;
    let first = partition.first_block();
    let a = near_at(border, kind, vectors, first, column, row + 1);
    let b = near_at(border, kind, vectors, first, column + 1, row);
    let c = near_at(
        border,
        kind,
        vectors,
        first,
        column + partition.width + 1,
        row,
    );
    let d = near_at(border, kind, vectors, first, column, row);
    if is_skip(kind) {
        skip(a, b, c, d)
    } else {
        predict(
            partition.shape,
            partition.index,
            partition.reference,
            a,
            b,
            c,
            d,
        )
    }
}

// The block at a column and a row that are counted from 1, for a partition that begins with this block:
// column 0 and row 0 are beside the macroblock, and so is column 5.
#[tactic(auto, unfolding(crate::specs::Vectors::near_at))]
fn near_at(
    border: &Border,
    kind: &MbKind,
    vectors: &[Vector; 16],
    first: u32,
    column: u32,
    row: u32,
) -> Near
    requires column { column ≤ 5 }
    requires row { row ≤ 4 }
    ensures { result ≡ near_at border.now kind.now vectors.now first column row }
{
    if row == 0 {
        above(border, column)
    } else if column == 0 {
        border.left[(row - 1) as usize]
    } else if column == 5 {
        Near::Missing
    } else {
        own(kind, vectors, first, block_at(column - 1, row - 1))
    }
}

fn above(border: &Border, column: u32) -> Near
    requires { column ≤ 5 }
    ensures { result ≡ above border.now column }
{
    if column == 0 {
        border.corner
    } else if column == 5 {
        border.right
    } else {
        border.above[(column - 1) as usize]
    }
}

// A block of the macroblock itself, where it is before the partition that begins with the block first.
fn own(kind: &MbKind, vectors: &[Vector; 16], first: u32, block: u32) -> Near
    requires { block < 16 }
    ensures { result ≡ own kind.now vectors.now first block }
{
    if block < first {
        Near::Inter {
            reference: partition_of(kind, block).reference,
            vector: vectors[block as usize],
        }
    } else {
        Near::Missing
    }
}

// A vector and its difference, where the sum is within the bounds.
fn moved(prediction: Vector, delta: Vector) -> Option<Vector>
    ensures { MatchOption result (¬ IsWithinBounds (sum_of prediction delta)) (λ vector. (vector ≡ sum_of prediction delta) × IsWithinBounds vector) }
{
    let x = sum_within(prediction.x, delta.x, 8192)?;
    let y = sum_within(prediction.y, delta.y, 2048)?;
    Some(Vector { x, y })
}

// A sum, where it is from -bound to bound - 1.
fn sum_within(prediction: i32, delta: i32, bound: i32) -> Option<i32>
    requires { pos 0 ≤ℤ bound }
    ensures { MatchOption result (¬ IsBetween bound (prediction +ℤ delta)) (λ sum. (sum ≡ prediction +ℤ delta) × IsBetween bound sum) }
{
    let sum = prediction.checked_add(delta)?;
    if -bound <= sum && sum < bound {
        Some(sum)
    } else {
        None
    }
}
