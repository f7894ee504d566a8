// Scaling and inverse transforms. H.264, 8.5.8 and 8.5.10 to 8.5.12.
ghost use Rattle.int_transform.specs.Bounds.{AreWithin, IsWithin};

use crate::line::{Line, number, signed, split};
use crate::told::{Text, shown};
use int_transform::{chroma_dc, chroma_qp, luma_dc, residual};
use std::alloc::Global;

/// Transforms levels, if the line asks for it.
pub fn answer(alloc: Global, line: Line<'_>) -> Option<Text> {
    let [first, second, third, ..] = line.words;
    let a = number(first);
    let b = number(second);
    let offset = signed(second);
    match line.name {
        "residual" => Some(shown(alloc, residual_of(a, second, number(third)))),
        "luma_dc" if b <= 51 => Some(shown(alloc, Some(luma_dc(&one_at(a), b)))),
        "chroma_dc" if b <= 51 => Some(shown(alloc, Some(chroma_dc(&four_of(first), b)))),
        "chroma_qp" if a <= 51 && -12 <= offset && offset <= 12 => {
            Some(shown(alloc, Some(chroma_qp(a, offset))))
        }
        _ => None,
    }
}

// `-` is no given DC value.
fn residual_of(place: u32, dc: &str, qp: u32) -> Option<[i32; 16]> {
    if qp > 51 {
        return None;
    }
    if dc == "-" {
        return Some(residual(&one_at(place), None, qp));
    }
    Some(residual(&one_at(place), Some(level_of(dc)), qp))
}

// Levels of which one is 1, at one of the first three places of a row, or none.
fn one_at(place: u32) -> [i32; 16]
    ensures { AreWithin 4096 result }
{
    if place == 0 {
        return [1, 0, 0, 0, 0, 0, 0, 0, 0, 0, 0, 0, 0, 0, 0, 0];
    }
    if place == 1 {
        return [0, 1, 0, 0, 0, 0, 0, 0, 0, 0, 0, 0, 0, 0, 0, 0];
    }
    if place == 2 {
        return [0, 0, 1, 0, 0, 0, 0, 0, 0, 0, 0, 0, 0, 0, 0, 0];
    }
    [0; 16]
}

fn four_of(list: &str) -> [i32; 4]
    ensures { AreWithin 4096 result }
{
    let (first, list) = split(list, ',');
    let (second, list) = split(list, ',');
    let (third, fourth) = split(list, ',');
    [
        level_of(first),
        level_of(second),
        level_of(third),
        level_of(fourth),
    ]
}

// A level. What is none is 0.
fn level_of(word: &str) -> i32
    ensures { IsWithin 4096 result }
{
    word.parse().unwrap_or(0).clamp(-4096, 4096)
}
