// Inter macroblocks, drawn.
ghost use Rattle.std.specs.Prelude.{◌≡◌, ◌<◌, ◌≤◌, ◌^◌, slice_index};
ghost use Rattle.cb_maker.specs.Draws.{each_below};
ghost use Rattle.cb_maker.specs.Kinds.{drawn_deltas, drawn_four, drawn_four_first, drawn_parts, drawn_reference, drawn_sub, drawn_sub_kind, drawn_tall, drawn_vector, drawn_whole, drawn_wide};
ghost use Rattle.mb_syntax.specs.Kinds as kinds;

use super::draws::Draws;
use cb_types::{MbKind, Part, Sub, Vector};
use mb_syntax::Slice;

pub fn whole(draws: &mut Draws, slice: &Slice) -> MbKind
    requires { 1 ≤ slice.now.active }
    ensures { drawn_whole slice.now draws.old.state ≡ (result, draws.new.state) }
{
    let reference = reference(draws, slice);
    let delta = vector(draws);
    let pattern = draws.draw(48);
    MbKind::Whole(Part { reference, delta }, pattern)
}

pub fn wide(draws: &mut Draws, slice: &Slice) -> MbKind
    requires { 1 ≤ slice.now.active }
    ensures { drawn_wide slice.now draws.old.state ≡ (result, draws.new.state) }
{
    let parts = parts(draws, slice);
    let pattern = draws.draw(48);
    MbKind::Wide(parts, pattern)
}

pub fn tall(draws: &mut Draws, slice: &Slice) -> MbKind
    requires { 1 ≤ slice.now.active }
    ensures { drawn_tall slice.now draws.old.state ≡ (result, draws.new.state) }
{
    let parts = parts(draws, slice);
    let pattern = draws.draw(48);
    MbKind::Tall(parts, pattern)
}

fn parts(draws: &mut Draws, slice: &Slice) -> [Part; 2]
    requires { 1 ≤ slice.now.active }
    ensures { drawn_parts slice.now draws.old.state ≡ (result, draws.new.state) }
{
    let first = reference(draws, slice);
    let second = reference(draws, slice);
    let first_delta = vector(draws);
    let second_delta = vector(draws);
    [
        Part {
            reference: first,
            delta: first_delta,
        },
        Part {
            reference: second,
            delta: second_delta,
        },
    ]
}

pub fn four(draws: &mut Draws, slice: &Slice) -> MbKind
    requires { 1 ≤ slice.now.active }
    ensures { drawn_four slice.now draws.old.state ≡ (result, draws.new.state) }
{
    let kinds = sub_kinds(draws);
    let references = references(draws, slice);
    let subs = subs(draws, &kinds, &references);
    let pattern = draws.draw(48);
    MbKind::Four(subs, pattern)
}

pub fn four_first(draws: &mut Draws) -> MbKind
    ensures { drawn_four_first draws.old.state ≡ (result, draws.new.state) }
{
    let kinds = sub_kinds(draws);
    let subs = first_subs(draws, &kinds);
    let pattern = draws.draw(48);
    MbKind::FourFirst(subs, pattern)
}

fn sub_kinds(draws: &mut Draws) -> [u32; 4]
    ensures { each_below 4 drawn_sub_kind draws.old.state ≡ (result, draws.new.state) }
{
    let mut kinds = [0; 4];
    for i in 0..4 {
        kinds[i] = sub_kind(draws, i as u32);
    }
    kinds
}

fn sub_kind(draws: &mut Draws, quarter: u32) -> u32
    ensures { drawn_sub_kind quarter draws.old.state ≡ (result, draws.new.state) }
{
    if quarter == 0 {
        draws.draw(4)
    } else {
        draws.draw(3)
    }
}

fn references(draws: &mut Draws, slice: &Slice) -> [u32; 4]
    requires { 1 ≤ slice.now.active }
    ensures { each_below 4 (λ quarter. drawn_reference slice.now) draws.old.state ≡ (result, draws.new.state) }
{
    let mut references = [0; 4];
    for i in 0..4 {
        references[i] = reference(draws, slice);
    }
    references
}

fn subs(draws: &mut Draws, kinds: &[u32; 4], references: &[u32; 4]) -> [Sub; 4]
    ensures { each_below 4 (λ quarter. drawn_sub (slice_index kinds.now quarter) (slice_index references.now quarter))
        draws.old.state ≡ (result, draws.new.state) }
{
    let mut subs = [NO_SUB; 4];
    for i in 0..4 {
        subs[i] = sub(draws, kinds[i], references[i]);
    }
    subs
}

// Sub-macroblocks of the first entry.
fn first_subs(draws: &mut Draws, kinds: &[u32; 4]) -> [Sub; 4]
    ensures { each_below 4 (λ quarter. drawn_sub (slice_index kinds.now quarter) 0) draws.old.state
        ≡ (result, draws.new.state) }
{
    let mut subs = [NO_SUB; 4];
    for i in 0..4 {
        subs[i] = sub(draws, kinds[i], 0);
    }
    subs
}

const ZERO: Vector = Vector { x: 0, y: 0 };

const NO_SUB: Sub = Sub {
    reference: 0,
    kind: 0,
    deltas: [ZERO; 4],
};

fn sub(draws: &mut Draws, kind: u32, reference: u32) -> Sub
    ensures { drawn_sub kind reference draws.old.state ≡ (result, draws.new.state) }
{
    let deltas = deltas(draws, kind);
    Sub {
        reference,
        kind,
        deltas,
    }
}

fn deltas(draws: &mut Draws, kind: u32) -> [Vector; 4]
    ensures { drawn_deltas kind draws.old.state ≡ (result, draws.new.state) }
{
    let mut deltas = [ZERO; 4];
    for i in 0..sub_parts(kind) {
        deltas[i] = vector(draws);
    }
    deltas
}

// How many vectors a sub-macroblock of this type has.
fn sub_parts(kind: u32) -> usize
    ensures parts { result ≡ kinds.sub_parts kind }
    ensures few { result ≤ 4 }
{
    match kind {
        0 => 1,
        3 => 4,
        _ => 2,
    }
}

fn vector(draws: &mut Draws) -> Vector
    ensures { drawn_vector draws.old.state ≡ (result, draws.new.state) }
{
    let x = draws.draw_around(4);
    let y = draws.draw_around(1);
    Vector { x, y }
}

fn reference(draws: &mut Draws, slice: &Slice) -> u32
    requires { 1 ≤ slice.now.active }
    ensures { drawn_reference slice.now draws.old.state ≡ (result, draws.new.state) }
{
    draws.draw(slice.active)
}
