// The slices of a picture, from their payloads.
ghost use Rattle.std.specs.Prelude.{◌≡◌, ◌+◌, ◌<◌, ◌≤◌, min, IsTrue, MatchOption, IfSome, OnSome, Some, drop, is_some, length, take, option_map, unwrap_or};
ghost use Rattle.cb_types.specs.AcceptedInfo.{IsAcceptedBySome};
ghost use Rattle.cb_types.specs.SizeMbs as sizes;
ghost use Rattle.cb_types.specs.SizeMbs.{IsWithinLimits};
ghost use Rattle.cb_types.specs.declared.header.UnitHead.{UnitHead};
ghost use Rattle.decoder_render.specs.Slices.{IsFirstByte};
ghost use Rattle.decoder_render.specs.Parsed.{AreParsed, IsParsed, IsUnparsed, first_header, header_in, start_of};
ghost use Rattle.decoder_render.specs.Submission.{bytes_of, payload_at};

use super::fitting::is_accepted;
use bit_io::BitReader;
use cb_types::{Header, ListEdit, Macroblock, Marking, PictureInfo, SizeMbs, UnitHead, Weights};
use mb_syntax::read_slice_data;
use ref_lists::{RefList, list_for};
use slice_header::read_header;

/// A slice that was read from its unit: its header, its reference list, and how many macroblocks it has.
#[derive(Clone, Copy)]
pub struct ParsedSlice {
    pub header: Header,
    pub list: RefList,
    pub count: u32,
}

/// What stands where no slice was read yet.
pub const NO_SLICE: ParsedSlice = ParsedSlice {
    header: Header {
        head: UnitHead {
            ref_idc: 0,
            unit_type: 0,
        },
        first_mb: 0,
        slice_type: 0,
        pps: 0,
        frame_num: 0,
        idr_pic_id: 0,
        poc_lsb: 0,
        delta_bottom: 0,
        delta_poc: [0; 2],
        active_override: None,
        edited: false,
        edit_count: 0,
        edits: [ListEdit::Subtract(0); 16],
        weights: Weights::NONE,
        marking: Marking::Absent,
        qp_delta: 0,
        deblock_idc: 0,
        alpha_half: 0,
        beta_half: 0,
    },
    list: RefList {
        length: 0,
        entries: [None; 16],
    },
    count: 0,
};

/// The first units of a picture that spell slices which fit it: how many they are, and how many macroblocks
/// they cover.
#[derive(Clone, Copy)]
pub struct Parsed {
    pub slices: usize,
    pub covered: u32,
}

/// Reads the slices of a picture from the payloads of its units, in their order, up to the first that spells
/// none, or none that fits the picture and those before it.
pub fn parse_slices(
    info: &PictureInfo,
    size: SizeMbs,
    units: &[Option<Vec<u8>>],
    slices: &mut [ParsedSlice],
    macroblocks: &mut [Macroblock],
) -> Parsed
    requires info { IsAcceptedBySome info.now }
    requires size { IsWithinLimits size }
    requires slices { length slices.old ≡ min (length units.now) (sizes.macroblocks size) }
    requires macroblocks { length macroblocks.old ≡ sizes.macroblocks size }
    ensures within { result.slices ≤ length units.now }
    ensures room { result.slices ≤ length slices.new }
    ensures parsed { AreParsed info.now size (bytes_of units.now) slices.new macroblocks.new result.slices }
    ensures covered { result.covered ≡ start_of slices.new result.slices }
    ensures inside { result.covered ≤ sizes.macroblocks size }
    ensures unparsed { result.slices < length units.now →
        IsUnparsed info.now size (first_header slices.new result.slices) result.covered (payload_at (bytes_of units.now) result.slices) }
{
    let mut covered = 0;
    for number in 0..units.len() {
        let before = &slices[..number];
        let Some(slice) = parse_unit(info, size, &units[number], before, covered, macroblocks)
        else {
            return Parsed {
                slices: number,
                covered,
            };
        };
        slices[number] = slice;
        covered += slice.count;
    }
    Parsed {
        slices: units.len(),
        covered,
    }
}

// The slice of a unit, behind these of its picture, which cover so many macroblocks.
fn parse_unit(
    info: &PictureInfo,
    size: SizeMbs,
    unit: &Option<Vec<u8>>,
    before: &[ParsedSlice],
    covered: u32,
    macroblocks: &mut [Macroblock],
) -> Option<ParsedSlice>
    requires info { IsAcceptedBySome info.now }
    requires size { IsWithinLimits size }
    requires macroblocks { length macroblocks.old ≡ sizes.macroblocks size }
    requires covered { covered ≤ sizes.macroblocks size }
    ensures reads { MatchOption result (IsUnparsed info.now size (header_in before.now) covered (option_map (λ bytes. bytes.items) unit.now))
        (λ slice. IfSome unit.now (λ bytes. IsParsed info.now size (header_in before.now) covered bytes.items slice (take slice.count (drop covered macroblocks.new)))) }
    ensures some { OnSome result (IsTrue (is_some unit.now)) }
    ensures kept { take covered macroblocks.new ≡ take covered macroblocks.old }
    ensures count { IfSome result (λ slice. (1 ≤ slice.count) × (covered + slice.count ≤ sizes.macroblocks size)) }
{
    match unit {
        Some(payload) => parse_slice(info, size, payload.as_slice(), before, covered, macroblocks),
        None => None,
    }
}

// The slice of a payload, behind these of its picture.
fn parse_slice(
    info: &PictureInfo,
    size: SizeMbs,
    payload: &[u8],
    before: &[ParsedSlice],
    covered: u32,
    macroblocks: &mut [Macroblock],
) -> Option<ParsedSlice>
    requires info { IsAcceptedBySome info.now }
    requires size { IsWithinLimits size }
    requires macroblocks { length macroblocks.old ≡ sizes.macroblocks size }
    requires covered { covered ≤ sizes.macroblocks size }
    ensures reads { MatchOption result (IsUnparsed info.now size (header_in before.now) covered (Some payload.now))
        (λ slice. IsParsed info.now size (header_in before.now) covered payload.now slice (take slice.count (drop covered macroblocks.new))) }
    ensures kept { take covered macroblocks.new ≡ take covered macroblocks.old }
    ensures count { IfSome result (λ slice. (1 ≤ slice.count) × (covered + slice.count ≤ sizes.macroblocks size)) }
{
    let head = head_of(payload)?;
    let mut reader = BitReader::new(&payload[1..]);
    let header = read_header(&mut reader, info, head)?;
    if !is_accepted(info, first_of(before, &header), covered, &header) {
        return None;
    }
    let list = list_for(info, &header)?;
    let count = read_slice_data(&mut reader, info, &header, size, macroblocks)?;
    Some(ParsedSlice {
        header,
        list,
        count,
    })
}

// The header of a picture's first slice: that of the first of these, or this one, where none is before it.
fn first_of<'a>(before: &'a [ParsedSlice], header: &'a Header) -> &'a Header
    ensures { result.now ≡ unwrap_or (header_in before.now) header.now }
{
    match before.first() {
        Some(slice) => &slice.header,
        None => header,
    }
}

// The parts of a unit's first byte (H.264, 7.3.1), none where forbidden_zero_bit is set.
fn head_of(payload: &[u8]) -> Option<UnitHead>
    ensures { MatchOption result ((head : UnitHead) → IsFirstByte payload.now head → ⊥) (λ head. IsFirstByte payload.now head) }
{
    let first = *payload.first()?;
    if first >= 128 {
        return None;
    }
    Some(UnitHead {
        ref_idc: first / 32,
        unit_type: first % 32,
    })
}
