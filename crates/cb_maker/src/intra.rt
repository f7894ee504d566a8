// Intra macroblocks, drawn.
ghost use Rattle.std.specs.Prelude.{◌≡◌, ◌<◌};
ghost use Rattle.cb_types.specs.SizeMbs.{macroblocks};
ghost use Rattle.cb_maker.specs.Draws.{draw, each_below};
ghost use Rattle.cb_maker.specs.Kinds as kinds;
ghost use Rattle.cb_maker.specs.Kinds.{drawn_chroma_mode, drawn_intra16, drawn_intra16_mode, drawn_intra4, drawn_mode, drawn_pcm};

use super::draws::Draws;
use super::stream::SIZE;
use cb_types::{MbKind, Mode, beside, block_x, block_y};
use mb_syntax::Slice;

pub fn pcm(draws: &mut Draws) -> MbKind
    ensures { drawn_pcm draws.old.state ≡ (result, draws.new.state) }
{
    MbKind::Pcm(samples(draws))
}

fn samples(draws: &mut Draws) -> [u8; 384]
    ensures { each_below 384 (λ place. draw 256) draws.old.state ≡ (result, draws.new.state) }
{
    let mut samples = [0; 384];
    for i in 0..384 {
        samples[i] = draws.draw(256) as u8;
    }
    samples
}

pub fn intra4(draws: &mut Draws, slice: &Slice, mb: u32) -> MbKind
    requires width { slice.now.width ≡ SIZE.width }
    requires inside { mb < macroblocks SIZE }
    ensures { drawn_intra4 slice.now mb draws.old.state ≡ (result, draws.new.state) }
{
    let modes = modes(draws, slice, mb);
    let chroma = chroma_mode(draws, slice, mb);
    let pattern = draws.draw(48);
    MbKind::Intra4 {
        modes,
        chroma,
        pattern,
    }
}

fn modes(draws: &mut Draws, slice: &Slice, mb: u32) -> [Mode; 16]
    requires width { slice.now.width ≡ SIZE.width }
    requires inside { mb < macroblocks SIZE }
    ensures { each_below 16 (drawn_mode slice.now mb) draws.old.state ≡ (result, draws.new.state) }
{
    let mut modes = [Mode::Predicted; 16];
    for i in 0..16 {
        modes[i] = mode(draws, slice, mb, i as u32);
    }
    modes
}

fn mode(draws: &mut Draws, slice: &Slice, mb: u32, block: u32) -> Mode
    requires width { slice.now.width ≡ SIZE.width }
    requires inside { mb < macroblocks SIZE }
    requires block { block < 16 }
    ensures { drawn_mode slice.now mb block draws.old.state ≡ (result, draws.new.state) }
{
    if !has_both(slice, mb, block) {
        return Mode::Predicted;
    }
    let remains = draws.draw(2);
    if remains == 0 {
        return Mode::Predicted;
    }
    let mode = draws.draw(8);
    Mode::Remaining(mode)
}

pub fn intra16(draws: &mut Draws, slice: &Slice, mb: u32) -> MbKind
    requires width { slice.now.width ≡ SIZE.width }
    requires inside { mb < macroblocks SIZE }
    ensures { drawn_intra16 slice.now mb draws.old.state ≡ (result, draws.new.state) }
{
    let mode = intra16_mode(draws, slice, mb);
    let luma = draws.draw(2);
    let chroma_pattern = draws.draw(3);
    let chroma = chroma_mode(draws, slice, mb);
    MbKind::Intra16 {
        mode,
        chroma,
        pattern: 15 * luma + 16 * chroma_pattern,
    }
}

fn intra16_mode(draws: &mut Draws, slice: &Slice, mb: u32) -> u32
    requires width { slice.now.width ≡ SIZE.width }
    requires inside { mb < macroblocks SIZE }
    ensures { drawn_intra16_mode slice.now mb draws.old.state ≡ (result, draws.new.state) }
{
    if has_all(slice, mb) { draws.draw(4) } else { 2 }
}

fn chroma_mode(draws: &mut Draws, slice: &Slice, mb: u32) -> u32
    requires width { slice.now.width ≡ SIZE.width }
    requires inside { mb < macroblocks SIZE }
    ensures { drawn_chroma_mode slice.now mb draws.old.state ≡ (result, draws.new.state) }
{
    if has_all(slice, mb) { draws.draw(4) } else { 0 }
}

// Whether the blocks to the left of this luma block and above it are of the slice.
fn has_both(slice: &Slice, mb: u32, block: u32) -> bool
    requires width { slice.now.width ≡ SIZE.width }
    requires inside { mb < macroblocks SIZE }
    requires block { block < 16 }
    ensures { result ≡ kinds.has_both slice.now mb block }
{
    (block_x(block) > 0 || has_left(slice, mb)) && (block_y(block) > 0 || has_above(slice, mb))
}

// Whether the macroblocks to the left, above, and above and left are of the slice.
fn has_all(slice: &Slice, mb: u32) -> bool
    requires width { slice.now.width ≡ SIZE.width }
    requires inside { mb < macroblocks SIZE }
    ensures { result ≡ kinds.has_all slice.now mb }
{
    has_left(slice, mb) && has_above(slice, mb) && is_of_slice(slice, beside(SIZE, mb, 3))
}

fn has_left(slice: &Slice, mb: u32) -> bool
    requires width { slice.now.width ≡ SIZE.width }
    requires inside { mb < macroblocks SIZE }
    ensures { result ≡ kinds.has_left slice.now mb }
{
    is_of_slice(slice, beside(SIZE, mb, 0))
}

fn has_above(slice: &Slice, mb: u32) -> bool
    requires width { slice.now.width ≡ SIZE.width }
    requires inside { mb < macroblocks SIZE }
    ensures { result ≡ kinds.has_above slice.now mb }
{
    is_of_slice(slice, beside(SIZE, mb, 1))
}

fn is_of_slice(slice: &Slice, mb: Option<u32>) -> bool
    ensures { result ≡ kinds.is_of_slice slice.now mb }
{
    match mb {
        None => false,
        Some(mb) => slice.first <= mb,
    }
}
