// The blocks beside a macroblock that its vectors are predicted from.
ghost use Rattle.std.specs.Prelude.{◌≡◌, ◌<◌, length};
ghost use Rattle.std.specs.Option.{ForSome};
ghost use Rattle.motion.specs.Around.{AreBefore};
ghost use Rattle.motion.specs.Border.{border_of, near_in, near_of};

use super::around::Around;
use super::kinds::is_intra;
use super::partition::partition_of;
use cb_types::{Macroblock, MbMark};
use mv_pred::Near;

/// What the 4x4 blocks beside a macroblock tell of their motion (H.264, 8.4.1.3.2): the four to the left
/// from the top, the four above from the left, the one above and right, the one above and left.
#[derive(Clone, Copy, Debug, PartialEq, Eq)]
pub struct Border {
    pub left: [Near; 4],
    pub above: [Near; 4],
    pub right: Near,
    pub corner: Near,
}

/// The border of a macroblock with these neighbours, from the slice's macroblocks and their marks.
#[tactic(auto, unfolding(crate::specs::Border::border_of))]
pub fn border_of(macroblocks: &[Macroblock], marks: &[MbMark], around: &Around) -> Border
    requires macroblocks { AreBefore (length macroblocks.now) around.now }
    requires marks { AreBefore (length marks.now) around.now }
    ensures { result ≡ border_of macroblocks.now marks.now around.now }
{
    let a = around.left;
    let b = around.above;
    Border {
        left: [
            near_in(macroblocks, marks, a, 5),
            near_in(macroblocks, marks, a, 7),
            near_in(macroblocks, marks, a, 13),
            near_in(macroblocks, marks, a, 15),
        ],
        above: [
            near_in(macroblocks, marks, b, 10),
            near_in(macroblocks, marks, b, 11),
            near_in(macroblocks, marks, b, 14),
            near_in(macroblocks, marks, b, 15),
        ],
        right: near_in(macroblocks, marks, around.above_right, 10),
        corner: near_in(macroblocks, marks, around.above_left, 15),
    }
}

fn near_in(macroblocks: &[Macroblock], marks: &[MbMark], number: Option<u32>, block: u32) -> Near
    requires macroblock { ForSome number (λ k. k < length macroblocks.now) }
    requires mark { ForSome number (λ k. k < length marks.now) }
    requires block { block < 16 }
    ensures { result ≡ near_in macroblocks.now marks.now number block }
{
    match number {
        None => Near::Missing,
        Some(number) => near_of(
            &macroblocks[number as usize],
            &marks[number as usize],
            block,
        ),
    }
}

#[tactic(auto, unfolding(crate::specs::Border::near_of))]
fn near_of(macroblock: &Macroblock, mark: &MbMark, block: u32) -> Near
    requires { block < 16 }
    ensures { result ≡ near_of macroblock.now.kind mark.now.vectors block }
{
    if is_intra(&macroblock.kind) {
        Near::Intra
    } else {
        Near::Inter {
            reference: partition_of(&macroblock.kind, block).reference,
            vector: mark.vectors[block as usize],
        }
    }
}
