// Macroblocks, drawn.
ghost use Rattle.std.specs.Prelude.{◌≡◌, ◌<◌, ◌≤◌};
ghost use Rattle.cb_types.specs.SizeMbs.{macroblocks};
ghost use Rattle.mb_syntax.specs.Kinds as kinds;
ghost use Rattle.cb_maker.specs.Macroblocks.{drawn_macroblock, drawn_of_kind, drawn_qp_delta};

use super::blocks::{block, chroma, chroma_dc, is_intra16, luma, pattern_of};
use super::draws::Draws;
use super::kinds::kind;
use super::stream::SIZE;
use cb_types::{Macroblock, MbKind};
use mb_syntax::Slice;

/// The slice's macroblock with this address.
pub fn macroblock(draws: &mut Draws, slice: &Slice, mb: u32) -> Macroblock
    requires active { 1 ≤ slice.now.active }
    requires width { slice.now.width ≡ SIZE.width }
    requires inside { mb < macroblocks SIZE }
    ensures { drawn_macroblock slice.now mb draws.old.state ≡ (result, draws.new.state) }
{
    let kind = kind(draws, slice, mb);
    if is_skip(&kind) {
        return Macroblock::SKIP;
    }
    of_kind(draws, kind)
}

fn of_kind(draws: &mut Draws, kind: MbKind) -> Macroblock
    ensures { drawn_of_kind kind draws.old.state ≡ (result, draws.new.state) }
{
    let qp_delta = qp_delta(draws, &kind);
    let luma_dc = block(draws, &kind, 0);
    let luma = luma(draws, &kind);
    let chroma_dc = chroma_dc(draws, &kind);
    let chroma = chroma(draws, &kind);
    Macroblock {
        kind,
        qp_delta,
        luma_dc,
        luma,
        chroma_dc,
        chroma,
    }
}

fn qp_delta(draws: &mut Draws, kind: &MbKind) -> i32
    ensures { drawn_qp_delta kind.now draws.old.state ≡ (result, draws.new.state) }
{
    if has_qp_delta(kind) {
        draws.draw_around(2)
    } else {
        0
    }
}

fn is_skip(kind: &MbKind) -> bool
    ensures { result ≡ kinds.is_skip kind.now }
{
    matches!(kind, MbKind::Skip)
}

fn has_qp_delta(kind: &MbKind) -> bool
    ensures { result ≡ kinds.has_qp_delta kind.now }
{
    is_intra16(kind) || pattern_of(kind) > 0
}
