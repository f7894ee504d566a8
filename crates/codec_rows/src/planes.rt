// A plane of samples, and what is predicted from it. H.264, 8.4.2.
ghost use Rattle.std.specs.Prelude.{◌≡◌, ◌*◌, ◌≤◌, IfOk, length};

use crate::line::{Line, bytes_of, number, place, signed};
use crate::told::{Text, shown};
use inter_pred::{chroma, luma, weigh};
use std::alloc::{AllocError, Global};
use vd_plane::Plane;

/// Changes or asks the plane, if the line does.
pub fn answer(alloc: Global, plane: &mut Plane, line: Line<'_>) -> Option<Text> {
    let [first, second, third, fourth, fifth, ..] = line.words;
    let a = number(first);
    let b = number(second);
    let c = number(third);
    let d = number(fourth);
    match line.name {
        "plane" => Some(made(alloc, plane, a, b, c)),
        "put_rect" => Some(put_rect(alloc, plane, [a, b, c, d], fifth)),
        "set" => Some(set(alloc, plane, a, b, c)),
        "at" if a < plane.width() && b < plane.height() => {
            Some(shown(alloc, Some(plane.at(a, b))))
        }
        "clamped" => Some(shown(alloc, Some(plane.clamped(place(first), place(second))))),
        "clamped_rect" => Some(clamped_rect(alloc, plane, place(first), place(second), [c, d])),
        "row" => Some(row(alloc, plane, a)),
        "luma" | "chroma" => {
            Some(predicted(alloc, plane, line.name, place(first), place(second), [c, d]))
        }
        "weigh" => Some(weighed(alloc, first, b, signed(third), signed(fourth))),
        _ => None,
    }
}

// Makes a plane of these sides whose samples have one value.
fn made(alloc: Global, plane: &mut Plane, width: u32, height: u32, value: u32) -> Text {
    if width < 1 || width > 4096 || height < 1 || height > 4096 {
        return format!(in alloc; "no such plane");
    }
    *plane = Plane::new(alloc, width, height, value.min(255) as u8)?;
    let width = plane.width();
    let height = plane.height();
    format!(in alloc; "{width} by {height}")
}

fn put_rect(alloc: Global, plane: &mut Plane, rect: [u32; 4], bytes: &str) -> Text {
    let [x, y, width, height] = rect;
    let bytes = bytes_of(alloc, bytes)?;
    if x > 4096
        || y > 4096
        || width > 4096
        || height > 4096
        || x + width > plane.width()
        || y + height > plane.height()
        || bytes.len() != (width * height) as usize
    {
        return format!(in alloc; "no such place");
    }
    plane.put_rect(x, y, width, height, &bytes);
    format!(in alloc; "done")
}

fn set(alloc: Global, plane: &mut Plane, x: u32, y: u32, value: u32) -> Text {
    if x >= plane.width() || y >= plane.height() {
        return format!(in alloc; "no such place");
    }
    plane.set(x, y, value.min(255) as u8);
    format!(in alloc; "done")
}

fn clamped_rect(alloc: Global, plane: &Plane, x: i64, y: i64, sides: [u32; 2]) -> Text {
    let [width, height] = sides;
    let width = width.min(16);
    let height = height.min(16);
    let mut samples = zeros(alloc, width, height)?;
    plane.clamped_rect(x, y, width, height, &mut samples);
    format!(in alloc; "{samples:?}")
}

fn row(alloc: Global, plane: &Plane, y: u32) -> Text {
    if y >= plane.height() {
        return format!(in alloc; "no such place");
    }
    let row = plane.row(y);
    format!(in alloc; "{row:?}")
}

// Samples of luma, or of chroma.
fn predicted(alloc: Global, plane: &Plane, name: &str, x: i64, y: i64, sides: [u32; 2]) -> Text {
    let [width, height] = sides;
    let width = width.max(1).min(16);
    let height = height.max(1).min(16);
    let mut samples = zeros(alloc, width, height)?;
    if x.unsigned_abs() > 65_536 || y.unsigned_abs() > 65_536 {
        return format!(in alloc; "too far");
    }
    if name == "luma" {
        luma(plane, x, y, width, height, &mut samples);
    } else {
        chroma(plane, x, y, width, height, &mut samples);
    }
    format!(in alloc; "{samples:?}")
}

fn weighed(alloc: Global, samples: &str, denom: u32, weight: i32, offset: i32) -> Text {
    let mut samples = bytes_of(alloc, samples)?;
    if denom <= 7 && weight.unsigned_abs() <= 128 && offset.unsigned_abs() <= 128 {
        weigh(&mut samples, denom, weight, offset);
    }
    format!(in alloc; "{samples:?}")
}

// A zero for each sample of a rectangle.
fn zeros(alloc: Global, width: u32, height: u32) -> Result<Vec<u8>, AllocError>
    requires width { width ≤ 16 }
    requires height { height ≤ 16 }
    ensures { IfOk result (λ samples. length samples.items ≡ width * height) }
{
    vec![in alloc; 0; (width * height) as usize]
}
