// The kind of a macroblock, drawn.
ghost use Rattle.std.specs.Prelude.{◌≡◌, ◌<◌, ◌≤◌};
ghost use Rattle.cb_types.specs.SizeMbs.{macroblocks};
ghost use Rattle.cb_maker.specs.Kinds.{drawn_in_i, drawn_in_p, drawn_kind};

use super::draws::Draws;
use super::inter::{four, four_first, tall, whole, wide};
use super::intra::{intra4, intra16, pcm};
use super::stream::SIZE;
use cb_types::MbKind;
use mb_syntax::Slice;

/// The kind of the slice's macroblock with this address.
pub fn kind(draws: &mut Draws, slice: &Slice, mb: u32) -> MbKind
    requires active { 1 ≤ slice.now.active }
    requires width { slice.now.width ≡ SIZE.width }
    requires inside { mb < macroblocks SIZE }
    ensures { drawn_kind slice.now mb draws.old.state ≡ (result, draws.new.state) }
{
    let number = draws.draw(20);
    if slice.is_p {
        kind_in_p(draws, slice, mb, number)
    } else {
        kind_in_i(draws, slice, mb, number)
    }
}

fn kind_in_i(draws: &mut Draws, slice: &Slice, mb: u32, number: u32) -> MbKind
    requires width { slice.now.width ≡ SIZE.width }
    requires inside { mb < macroblocks SIZE }
    ensures { drawn_in_i slice.now mb number draws.old.state ≡ (result, draws.new.state) }
{
    if number == 0 {
        pcm(draws)
    } else if number < 10 {
        intra16(draws, slice, mb)
    } else {
        intra4(draws, slice, mb)
    }
}

fn kind_in_p(draws: &mut Draws, slice: &Slice, mb: u32, number: u32) -> MbKind
    requires active { 1 ≤ slice.now.active }
    requires width { slice.now.width ≡ SIZE.width }
    requires inside { mb < macroblocks SIZE }
    ensures { drawn_in_p slice.now mb number draws.old.state ≡ (result, draws.new.state) }
{
    if number < 7 {
        MbKind::Skip
    } else if number < 10 {
        whole(draws, slice)
    } else if number < 12 {
        wide(draws, slice)
    } else if number < 14 {
        tall(draws, slice)
    } else if number < 16 {
        four(draws, slice)
    } else if number == 16 {
        four_first(draws)
    } else if number == 17 {
        intra4(draws, slice, mb)
    } else if number == 18 {
        intra16(draws, slice, mb)
    } else {
        pcm(draws)
    }
}
