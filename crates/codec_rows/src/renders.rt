// Pictures decoded from their units.
ghost use Rattle.std.specs.Prelude.{◌<◌, ◌≤◌};

use crate::infos::{info_of, is_accepted};
use crate::line::{Line, bytes_of, number};
use crate::told::Text;
use cb_types::{PictureInfo, SizeMbs};
use decoder_render::{Outcome, Prepared};
use recon::Refs;
use std::alloc::{AllocError, Global};
use std::sync::Arc;
use std::thread::Threads;
use vd_outside::OpenGate;
use vd_plane::{Picture, Plane};

/// Decodes a picture, if the line asks for it.
pub fn answer<R: Threads + Sync>(
    rt: &R,
    alloc: Global,
    picture: &mut Picture,
    line: Line<'_>,
) -> Option<Text> {
    let [first, second, third, ..] = line.words;
    match line.name {
        "render" => Some(rendered(rt, alloc, picture, first, second, third)),
        "turned" => Some(turned(rt, alloc, line.words)),
        _ => None,
    }
}

// One to four macroblocks.
fn width_of(word: &str) -> u32
    ensures some { 1 ≤ result }
    ensures few { result ≤ 4 }
{
    number(word).max(1).min(4)
}

fn rendered<R: Threads + Sync>(
    rt: &R,
    alloc: Global,
    picture: &mut Picture,
    width: &str,
    fields: &str,
    bytes: &str,
) -> Text {
    let bytes = bytes_of(alloc, bytes)?;
    decoded(
        rt,
        alloc,
        picture,
        width_of(width),
        &info_of(fields),
        &bytes,
    )
}

// Decodes a picture of so many macroblocks in a row: how many units it has, and its outcome, if that is the same where
// its slices are constructed at once.
fn decoded<R: Threads + Sync>(
    rt: &R,
    alloc: Global,
    picture: &mut Picture,
    width: u32,
    info: &PictureInfo,
    bytes: &[u8],
) -> Text
    requires some { 1 ≤ width }
    requires few { width ≤ 4 }
{
    if bytes.len() > 1_000 || !is_accepted(info) {
        return format!(in alloc; "not accepted");
    }
    let refs = flat_refs(alloc, width)?;
    let size = SizeMbs { width, height: 1 };
    let mut prepared = Prepared::new(alloc, size, bytes)?;
    let units = prepared.units();
    let outcome = prepared.decode(info, &refs);
    *picture = prepared.picture();
    let mut again = Prepared::new(alloc, size, bytes)?;
    let at_once = again.decode_gated(rt, info, &refs, &mut [OpenGate; 4]);
    if at_once != outcome || !is_same(picture, &again.picture()) {
        return format!(in alloc; "otherwise at once");
    }
    let outcome = outcome_text(alloc, outcome)?;
    format!(in alloc; "{units} units, {outcome}")
}

// Whether all samples are the same.
fn is_same(a: &Picture, b: &Picture) -> bool {
    a.y.samples() == b.y.samples()
        && a.cb.samples() == b.cb.samples()
        && a.cr.samples() == b.cr.samples()
}

pub fn outcome_text(alloc: Global, outcome: Outcome) -> Text {
    match outcome {
        Outcome::Ok => format!(in alloc; "ok"),
        Outcome::Bitstream { slice } => format!(in alloc; "bitstream:{slice}"),
        Outcome::Incomplete { macroblocks } => format!(in alloc; "incomplete:{macroblocks}"),
    }
}

/// References of which none is held.
pub fn no_refs() -> Refs {
    refs_of(None)
}

// The picture at the first place of the references, whose samples are all 128.
fn flat_refs(alloc: Global, width: u32) -> Result<Refs, AllocError>
    requires some { 1 ≤ width }
    requires few { width ≤ 4 }
{
    let flat = Arc::new(alloc, flat(alloc, width)?)?;
    Ok(refs_of(Some(flat)))
}

fn refs_of(first: Option<Arc<Picture>>) -> Refs {
    Refs {
        pictures: [
            first, None, None, None, None, None, None, None, None, None, None, None, None, None,
            None, None,
        ],
    }
}

fn flat(alloc: Global, width: u32) -> Result<Picture, AllocError>
    requires some { 1 ≤ width }
    requires few { width ≤ 4 }
{
    Ok(Picture {
        y: Plane::new(alloc, 16 * width, 16, 128)?,
        cb: Plane::new(alloc, 8 * width, 8, 128)?,
        cr: Plane::new(alloc, 8 * width, 8, 128)?,
    })
}

// Decodes a picture once for each bit of its bytes from one place up to another, with that bit turned over: how many of
// these have so many units, and an outcome that begins with one of these words.
fn turned<R: Threads + Sync>(rt: &R, alloc: Global, words: [&str; 8]) -> Text {
    let [width, fields, bytes, from, to, units, outcomes, _] = words;
    let width = width_of(width);
    let info = info_of(fields);
    let mut bytes = bytes_of(alloc, bytes)?;
    let mut picture = flat(alloc, 1)?;
    let mut all: u32 = 0;
    let mut wanted: u32 = 0;
    for place in number(from)..number(to).min(1_000) {
        for bit in 0..8u32 {
            turn(&mut bytes, place, bit);
            let text = decoded(rt, alloc, &mut picture, width, &info, &bytes)?;
            turn(&mut bytes, place, bit);
            all = all.saturating_add(1);
            if is_wanted(alloc, text.as_str(), units, outcomes)? {
                wanted = wanted.saturating_add(1);
            }
        }
    }
    format!(in alloc; "{wanted} of {all}")
}

// Turns over a bit of a byte, if there is one at this place.
fn turn(bytes: &mut Vec<u8>, place: u32, bit: u32)
    requires { bit < 8 }
{
    if let Some(byte) = bytes.get_mut(place as usize) {
        *byte ^= 128u8 >> bit;
    }
}

fn is_wanted(alloc: Global, text: &str, units: &str, outcomes: &str) -> Result<bool, AllocError> {
    for outcome in outcomes.split('/') {
        let wanted = format!(in alloc; "{units} units, {outcome}")?;
        if text.starts_with(wanted.as_str()) {
            return Ok(true);
        }
    }
    Ok(false)
}
