// The blocks of levels of a macroblock, drawn.
ghost use Rattle.std.specs.Prelude.{◌≡◌, ◌<◌, ◌≤◌};
ghost use Rattle.cb_maker.specs.Blocks.{drawn_4x4, drawn_block, drawn_chroma, drawn_dc, drawn_level, drawn_levels, drawn_luma};
ghost use Rattle.cb_maker.specs.Draws.{each_below};
ghost use Rattle.mb_syntax.specs.Blocks as blocks;
ghost use Rattle.mb_syntax.specs.Counts.{chroma_place};
ghost use Rattle.mb_syntax.specs.Kinds as kinds;

use super::draws::Draws;
use cb_types::{ChromaLevels, DcLevels, Levels, MbKind};

/// The luma blocks.
pub fn luma(draws: &mut Draws, kind: &MbKind) -> [Levels; 16]
    ensures { each_below 16 (drawn_luma kind.now) draws.old.state ≡ (result, draws.new.state) }
{
    let mut luma = [Levels([0; 16]); 16];
    for i in 0..16 {
        luma[i] = levels_of(draws, kind, 1 + i as u32);
    }
    luma
}

/// The DC blocks of Cb and Cr.
pub fn chroma_dc(draws: &mut Draws, kind: &MbKind) -> [DcLevels; 2]
    ensures { each_below 2 (drawn_dc kind.now) draws.old.state ≡ (result, draws.new.state) }
{
    let mut chroma_dc = [DcLevels([0; 4]); 2];
    for i in 0..2 {
        chroma_dc[i] = dc(draws, kind, i as u32);
    }
    chroma_dc
}

fn dc(draws: &mut Draws, kind: &MbKind, plane: u32) -> DcLevels
    requires { plane < 2 }
    ensures { drawn_dc kind.now plane draws.old.state ≡ (result, draws.new.state) }
{
    let levels = block(draws, kind, 17 + plane);
    DcLevels([levels[0], levels[1], levels[2], levels[3]])
}

/// The AC blocks of Cb and Cr.
pub fn chroma(draws: &mut Draws, kind: &MbKind) -> [ChromaLevels; 2]
    ensures { each_below 2 (drawn_chroma kind.now) draws.old.state ≡ (result, draws.new.state) }
{
    let mut chroma = [ChromaLevels([Levels([0; 16]); 4]); 2];
    for i in 0..2 {
        chroma[i] = plane(draws, kind, i as u32);
    }
    chroma
}

fn plane(draws: &mut Draws, kind: &MbKind, plane: u32) -> ChromaLevels
    requires { plane < 2 }
    ensures { drawn_chroma kind.now plane draws.old.state ≡ (result, draws.new.state) }
{
    ChromaLevels(plane_blocks(draws, kind, plane))
}

fn plane_blocks(draws: &mut Draws, kind: &MbKind, plane: u32) -> [Levels; 4]
    requires { plane < 2 }
    ensures { each_below 4 (λ block. drawn_4x4 kind.now (chroma_place plane block)) draws.old.state
        ≡ (result, draws.new.state) }
{
    let mut all = [Levels([0; 16]); 4];
    for i in 0..4 {
        all[i] = levels_of(draws, kind, 19 + 4 * plane + i as u32);
    }
    all
}

fn levels_of(draws: &mut Draws, kind: &MbKind, place: u32) -> Levels
    requires { place < 27 }
    ensures { drawn_4x4 kind.now place draws.old.state ≡ (result, draws.new.state) }
{
    let levels = block(draws, kind, place);
    Levels(levels)
}

/// The block at this place in the order of a macroblock's blocks.
pub fn block(draws: &mut Draws, kind: &MbKind, place: u32) -> [i32; 16]
    requires { place < 27 }
    ensures { drawn_block kind.now place draws.old.state ≡ (result, draws.new.state) }
{
    if !is_coded(kind, place) {
        return [0; 16];
    }
    let most = most_levels(kind, place);
    levels(draws, most)
}

// So many levels in scan order, and 0 at the other places.
fn levels(draws: &mut Draws, count: usize) -> [i32; 16]
    requires { count ≤ 16 }
    ensures { drawn_levels count draws.old.state ≡ (result, draws.new.state) }
{
    let mut levels = [0; 16];
    for i in 0..count {
        levels[i] = level(draws);
    }
    levels
}

fn level(draws: &mut Draws) -> i32
    ensures { drawn_level draws.old.state ≡ (result, draws.new.state) }
{
    let zeros = draws.draw(4);
    if zeros == 0 { draws.draw_around(3) } else { 0 }
}

// Whether the block at this place is coded.
#[tactic(auto, unfolding(mb_syntax::specs::Blocks::is_coded))]
fn is_coded(kind: &MbKind, place: u32) -> bool
    requires { place < 27 }
    ensures { result ≡ blocks.is_coded kind.now place }
{
    let pattern = pattern_of(kind);
    match place {
        0 => is_intra16(kind),
        1..=16 => (pattern >> ((place - 1) / 4)) % 2 == 1,
        17..=18 => pattern / 16 >= 1,
        _ => pattern / 16 == 2,
    }
}

// How many levels the block at this place can have.
#[tactic(auto, unfolding(mb_syntax::specs::Blocks::most_levels))]
fn most_levels(kind: &MbKind, place: u32) -> usize
    ensures value { result ≡ blocks.most_levels kind.now place }
    ensures few { result ≤ 16 }
{
    match place {
        0 => 16,
        1..=16 => if is_intra16(kind) { 15 } else { 16 },
        17..=18 => 4,
        _ => 15,
    }
}

/// Whether the kind is Intra16x16.
pub fn is_intra16(kind: &MbKind) -> bool
    ensures { result ≡ kinds.is_intra16 kind.now }
{
    matches!(kind, MbKind::Intra16 { .. })
}

/// CodedBlockPatternLuma plus 16 times CodedBlockPatternChroma.
pub fn pattern_of(kind: &MbKind) -> u32
    ensures { result ≡ kinds.pattern_of kind.now }
{
    match kind {
        MbKind::Skip | MbKind::Pcm(_) => 0,
        MbKind::Intra4 { pattern, .. } => *pattern,
        MbKind::Intra16 { pattern, .. } => *pattern,
        MbKind::Whole(_, pattern) => *pattern,
        MbKind::Wide(_, pattern) => *pattern,
        MbKind::Tall(_, pattern) => *pattern,
        MbKind::Four(_, pattern) => *pattern,
        MbKind::FourFirst(_, pattern) => *pattern,
    }
}
