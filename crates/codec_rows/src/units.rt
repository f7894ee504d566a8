// The units of a byte stream, H.264, Annex B.
ghost use Rattle.std.specs.Prelude.{◌<◌, ◌≤◌, ◌^◌, length};

use crate::line::{Line, bytes_of};
use crate::told::{Text, in_hex, shown};
use nal_units::{Finder, Found, join};
use std::alloc::{AllocError, Global};

/// Finds or joins units, if the line asks for it.
pub fn answer(alloc: Global, line: Line<'_>) -> Option<Text> {
    let [first, second, third, ..] = line.words;
    match line.name {
        "units_by_bytes" => Some(by_bytes(alloc, first)),
        "units_by_pieces" => Some(by_pieces(alloc, first)),
        "join" => Some(joined(alloc, [first, second, third])),
        "short_texts" => Some(short_texts(alloc)),
        _ => None,
    }
}

fn by_bytes(alloc: Global, text: &str) -> Text {
    let text = bytes_of(alloc, text)?;
    if text.len() > 1_000 {
        return format!(in alloc; "too long");
    }
    shown(alloc, Some(pushed(alloc, &text)?))
}

fn by_pieces(alloc: Global, text: &str) -> Text {
    let text = bytes_of(alloc, text)?;
    if text.len() > 1_000 {
        return format!(in alloc; "too long");
    }
    shown(alloc, Some(sliced(alloc, &text)?))
}

fn joined(alloc: Global, texts: [&str; 3]) -> Text {
    let [first, second, third] = texts;
    let mut units = Vec::new(alloc);
    units.push(bytes_of(alloc, first)?)?;
    units.push(bytes_of(alloc, second)?)?;
    units.push(bytes_of(alloc, third)?)?;
    in_hex(alloc, &join(alloc, &units)?)
}

// A text's units, each from its first place up to the place after its last byte, and its broken place.
type Reading = (Vec<(u64, u64)>, Option<u64>);

// Reads a text byte by byte.
fn pushed(alloc: Global, text: &[u8]) -> Result<Reading, AllocError>
    requires { length text.now < 2 ^ 32 }
{
    let mut units = Vec::new(alloc);
    let mut finder = Finder::new();
    for byte in text {
        match finder.push(*byte) {
            Found::Nothing => {}
            Found::Unit { start, end } => units.push((start, end))?,
            Found::Broken { at } => return Ok((units, Some(at))),
        }
    }
    ended(units, finder.finish())
}

// Reads a text in pieces, each up to what is found.
fn sliced(alloc: Global, text: &[u8]) -> Result<Reading, AllocError>
    requires { length text.now < 2 ^ 32 }
{
    let mut units = Vec::new(alloc);
    let mut finder = Finder::new();
    let mut place = 0;
    while place < text.len() {
        let (taken, found) = finder.push_slice(&text[place..]);
        place += taken;
        match found {
            Found::Nothing => {}
            Found::Unit { start, end } => units.push((start, end))?,
            Found::Broken { at } => return Ok((units, Some(at))),
        }
    }
    ended(units, finder.finish())
}

fn ended(mut units: Vec<(u64, u64)>, found: Found) -> Result<Reading, AllocError> {
    let mut broken = None;
    match found {
        Found::Nothing => {}
        Found::Unit { start, end } => units.push((start, end))?,
        Found::Broken { at } => broken = Some(at),
    }
    Ok((units, broken))
}

// Reads a text as the byte stream format is written down: zero bytes, a start code, the unit up to the next start
// code or three zero bytes or the last zero bytes, and so on.
fn spelled(alloc: Global, text: &[u8]) -> Result<Reading, AllocError> {
    let mut units = Vec::new(alloc);
    let mut broken = None;
    let mut from = 0;
    while from < text.len() {
        let place = first_nonzero(text, from);
        if place == text.len() {
            break;
        }
        let start = place + 1;
        let end = unit_end(text, start);
        if text[place] != 1 || place - from < 2 {
            broken = Some(place as u64);
            break;
        }
        if end == start {
            broken = Some(start as u64);
            break;
        }
        units.push((start as u64, end as u64))?;
        from = end;
    }
    Ok((units, broken))
}

fn first_nonzero(text: &[u8], from: usize) -> usize
    requires { from ≤ length text.now }
    ensures after { from ≤ result }
    ensures inside { result ≤ length text.now }
{
    for place in from..text.len() {
        if text[place] != 0 {
            return place;
        }
    }
    text.len()
}

fn unit_end(text: &[u8], start: usize) -> usize
    requires { start ≤ length text.now }
    ensures after { start ≤ result }
    ensures inside { result ≤ length text.now }
{
    for end in start..text.len() {
        if let [] | [0] | [0, 0] | [0, 0, 0 | 1, ..] = &text[end..] {
            return end;
        }
    }
    text.len()
}

const BYTES: [u8; 5] = [0, 1, 2, 3, 0x41];

// Each text of up to seven of these bytes, read byte by byte, in pieces, and as it is spelled.
fn short_texts(alloc: Global) -> Text {
    let mut texts: u32 = 1;
    let mut count: u32 = 0;
    let mut others: u32 = 0;
    for len in 0..8usize {
        for number in 0..texts {
            let text = text_of(number);
            count = count.wrapping_add(1);
            if !is_read_as_spelled(alloc, &text[..len])? {
                others = others.wrapping_add(1);
            }
        }
        texts = texts.wrapping_mul(5);
    }
    format!(in alloc; "{count} texts, {others} read otherwise")
}

// The text of a number with these bytes as digits.
fn text_of(number: u32) -> [u8; 8] {
    [
        BYTES[(number % 5) as usize],
        BYTES[(number / 5 % 5) as usize],
        BYTES[(number / 25 % 5) as usize],
        BYTES[(number / 125 % 5) as usize],
        BYTES[(number / 625 % 5) as usize],
        BYTES[(number / 3_125 % 5) as usize],
        BYTES[(number / 15_625 % 5) as usize],
        0,
    ]
}

fn is_read_as_spelled(alloc: Global, text: &[u8]) -> Result<bool, AllocError>
    requires { length text.now < 2 ^ 32 }
{
    let (units, broken) = spelled(alloc, text)?;
    let (bytewise, bytewise_broken) = pushed(alloc, text)?;
    let (piecewise, piecewise_broken) = sliced(alloc, text)?;
    Ok(
        bytewise.as_slice() == units.as_slice()
            && bytewise_broken == broken
            && piecewise.as_slice() == units.as_slice()
            && piecewise_broken == broken,
    )
}
