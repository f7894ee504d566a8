// A picture, its samples and bytes, its pixels, and its filtered samples.
use crate::infos::{IDR, is_accepted};
use crate::line::{Line, bytes_of, number};
use crate::told::{Text, in_hex, repeated};
use bits_io::{YV12, byte_count, get, put};
use cb_types::{MbMark, SizeMbs, Vector};
use deblock::filter;
use mixer::{DEFAULT_MATRIX, R8G8B8A8, mix};
use std::alloc::Global;
use vd_plane::{Picture, Plane, Tile, place_tiles};

/// Changes or asks the picture, if the line does.
pub fn answer(alloc: Global, picture: &mut Picture, line: Line<'_>) -> Option<Text> {
    let [first, second, ..] = line.words;
    let a = number(first);
    let b = number(second);
    match line.name {
        "picture" => Some(made(alloc, picture, a, b)),
        "picture_of_size" => Some(of_size(alloc, picture, a, b)),
        "tiles" => Some(tiles(alloc, picture, line.words)),
        "fill" => Some(fill(alloc, picture, first, second)),
        "samples" => Some(samples(alloc, plane_of(picture, first))),
        "put_bits" => Some(put_bits(alloc, picture, a, second)),
        "get_bits" => Some(get_bits(alloc, picture, a)),
        "mix" => Some(mixed(alloc, picture, a)),
        "edge" => Some(edge(alloc, picture, first, second)),
        _ => None,
    }
}

fn made(alloc: Global, picture: &mut Picture, width: u32, height: u32) -> Text {
    if width < 1 || width > 256 || height < 1 || height > 256 {
        return format!(in alloc; "no such picture");
    }
    *picture = Picture::new(alloc, width, height)?;
    format!(in alloc; "done")
}

fn of_size(alloc: Global, picture: &mut Picture, width: u32, height: u32) -> Text {
    let size = SizeMbs { width, height };
    if !size.is_within_limits() {
        return format!(in alloc; "no such picture");
    }
    *picture = Picture::of_size(alloc, size)?;
    format!(in alloc; "done")
}

// Makes a picture of two macroblocks, each with one sample of Y, of Cb and of Cr.
fn tiles(alloc: Global, picture: &mut Picture, words: [&str; 8]) -> Text {
    let [y, cb, cr, other_y, other_cb, other_cr, _, _] = words;
    *picture = Picture::new(alloc, 2, 1)?;
    let tiles = [tile(y, cb, cr), tile(other_y, other_cb, other_cr)];
    place_tiles(&tiles, 2, picture);
    format!(in alloc; "done")
}

fn tile(y: &str, cb: &str, cr: &str) -> Tile {
    Tile {
        y: [number(y).min(255) as u8; 256],
        cb: [number(cb).min(255) as u8; 64],
        cr: [number(cr).min(255) as u8; 64],
    }
}

fn plane_of<'a>(picture: &'a Picture, name: &str) -> &'a Plane {
    match name {
        "cb" => &picture.cb,
        "cr" => &picture.cr,
        _ => &picture.y,
    }
}

// Writes all samples of a plane.
fn fill(alloc: Global, picture: &mut Picture, name: &str, bytes: &str) -> Text {
    let bytes = bytes_of(alloc, bytes)?;
    match name {
        "y" if bytes.len() == picture.y.samples().len() => {
            picture.y.samples_mut().copy_from_slice(&bytes)
        }
        "cb" if bytes.len() == picture.cb.samples().len() => {
            picture.cb.samples_mut().copy_from_slice(&bytes)
        }
        "cr" if bytes.len() == picture.cr.samples().len() => {
            picture.cr.samples_mut().copy_from_slice(&bytes)
        }
        _ => return format!(in alloc; "another count"),
    }
    format!(in alloc; "done")
}

fn samples(alloc: Global, plane: &Plane) -> Text {
    repeated(alloc, plane.samples(), plane.width() as usize)
}

fn put_bits(alloc: Global, picture: &mut Picture, format: u32, bytes: &str) -> Text {
    let bytes = bytes_of(alloc, bytes)?;
    if format > YV12 || bytes.len() != byte_count(picture) {
        return format!(in alloc; "another count");
    }
    put(picture, format, &bytes);
    format!(in alloc; "done")
}

fn get_bits(alloc: Global, picture: &Picture, format: u32) -> Text {
    let mut bytes = vec![in alloc; 0; byte_count(picture)]?;
    if format <= YV12 {
        get(picture, format, &mut bytes);
    }
    in_hex(alloc, &bytes)
}

// The picture's pixels by the default matrix.
fn mixed(alloc: Global, picture: &Picture, format: u32) -> Text {
    let mut pixels = vec![in alloc; 0; 4 * picture.y.samples().len()]?;
    if format <= R8G8B8A8 {
        mix(picture, &DEFAULT_MATRIX, format, &mut pixels);
    }
    repeated(alloc, &pixels, 4)
}

const PAIR: SizeMbs = SizeMbs {
    width: 2,
    height: 1,
};

const INTRA: MbMark = MbMark {
    slice: 0,
    intra: true,
    pcm: false,
    qp: 51,
    idc: 0,
    alpha: 0,
    beta: 0,
    coded: [false; 16],
    pictures: [0; 16],
    vectors: [Vector { x: 0, y: 0 }; 16],
};

// Makes a picture of two intra macroblocks of QP 51 side by side, each with one sample of Y, Cb and Cr, and filters it.
fn edge(alloc: Global, picture: &mut Picture, left: &str, right: &str) -> Text {
    *picture = Picture::of_size(alloc, PAIR)?;
    let tiles = [tile(left, left, left), tile(right, right, right)];
    place_tiles(&tiles, 2, picture);
    if is_accepted(&IDR) {
        filter(&IDR, PAIR, &[INTRA; 2], picture);
    }
    format!(in alloc; "done")
}
