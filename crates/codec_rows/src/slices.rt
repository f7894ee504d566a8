// Slice headers and slice data (H.264, 7.3.3 and 7.3.4), and reference lists of P slices (8.2.4).
use crate::infos::{info_of, is_accepted};
use crate::line::{Line, bytes_of, number};
use crate::told::{Text, in_hex, shown};
use crate::types::HEADER;
use bit_io::{BitReader, BitWriter};
use cb_types::{Header, ListEdit, Macroblock, PictureInfo, SizeMbs, UnitHead};
use mb_syntax::{read_slice_data, write_slice_data};
use ref_lists::{RefList, list_for};
use slice_header::{read_header, write_header};
use std::alloc::{AllocError, Global};

/// Reads a slice or makes a list, if the line asks for it.
pub fn answer(alloc: Global, line: Line<'_>) -> Option<Text> {
    let [first, second, third, fourth, ..] = line.words;
    let info = info_of(first);
    let head = UnitHead {
        ref_idc: number(second).min(3) as u8,
        unit_type: number(third).min(31) as u8,
    };
    match line.name {
        "header" => Some(header_text(alloc, &info, head, fourth)),
        "header_back" => Some(header_back(alloc, &info, head, fourth)),
        "slice_data" => Some(slice_data(alloc, &info, head, fourth)),
        "slice_data_back" => Some(slice_data_back(alloc, &info, head, fourth)),
        "list" => Some(list_text(alloc, list_edited_by(&info, number(second), third))),
        _ => None,
    }
}

// None where the information isn't accepted.
fn header_in(reader: &mut BitReader, info: &PictureInfo, head: UnitHead) -> Option<Header> {
    if is_accepted(info) {
        read_header(reader, info, head)
    } else {
        None
    }
}

// A header, and the six bits behind it.
fn header_text(alloc: Global, info: &PictureInfo, head: UnitHead, bytes: &str) -> Text {
    let bytes = bytes_of(alloc, bytes)?;
    let mut reader = BitReader::new(&bytes);
    let header = shown(alloc, header_in(&mut reader, info, head))?;
    let behind = shown(alloc, reader.read_u(6))?;
    format!(in alloc; "{header}, then {behind}")
}

// The bytes of the header that is read, and of the six bits behind it.
fn header_back(alloc: Global, info: &PictureInfo, head: UnitHead, bytes: &str) -> Text {
    let bytes = bytes_of(alloc, bytes)?;
    let mut reader = BitReader::new(&bytes);
    let mut writer = BitWriter::new(alloc);
    if is_accepted(info)
        && let Some(header) = read_header(&mut reader, info, head)
    {
        write_header(&mut writer, info, &header)?;
    }
    let behind = reader.read_u(6).unwrap_or(0).min(63);
    writer.put_u(behind, 6)?;
    in_hex(alloc, writer.bytes())
}

const ONE: SizeMbs = SizeMbs {
    width: 1,
    height: 1,
};

const OTHER: Macroblock = Macroblock {
    qp_delta: 1,
    ..Macroblock::SKIP
};

// How many macroblocks a slice of a picture of one macroblock has, and whether that one is skipped.
fn slice_data(alloc: Global, info: &PictureInfo, head: UnitHead, bytes: &str) -> Text {
    let bytes = bytes_of(alloc, bytes)?;
    let mut macroblocks = [OTHER];
    let count = shown(alloc, count_in(&bytes, info, head, &mut macroblocks))?;
    let is_skipped = macroblocks == [Macroblock::SKIP];
    format!(in alloc; "{count}, skipped: {is_skipped}")
}

fn count_in(
    bytes: &[u8],
    info: &PictureInfo,
    head: UnitHead,
    into: &mut [Macroblock; 1],
) -> Option<u32> {
    let mut reader = BitReader::new(bytes);
    if !is_accepted(info) {
        return None;
    }
    let header = read_header(&mut reader, info, head)?;
    read_slice_data(&mut reader, info, &header, ONE, into)
}

// The bytes of the slice that is read.
fn slice_data_back(alloc: Global, info: &PictureInfo, head: UnitHead, bytes: &str) -> Text {
    let bytes = bytes_of(alloc, bytes)?;
    let mut writer = BitWriter::new(alloc);
    put_slice(&mut writer, &bytes, info, head)?;
    in_hex(alloc, writer.bytes())
}

fn put_slice(
    out: &mut BitWriter,
    bytes: &[u8],
    info: &PictureInfo,
    head: UnitHead,
) -> Result<(), AllocError> {
    let mut reader = BitReader::new(bytes);
    let mut macroblocks = [OTHER];
    if !is_accepted(info) {
        return Ok(());
    }
    let Some(header) = read_header(&mut reader, info, head) else {
        return Ok(());
    };
    let Some(count) = read_slice_data(&mut reader, info, &header, ONE, &mut macroblocks) else {
        return Ok(());
    };
    write_header(out, info, &header)?;
    write_slice_data(out, info, &header, ONE, &macroblocks, count)
}

// The list of a slice with this frame_num and one edit, that subtracts so much and 1, or with none. None where the
// information isn't accepted.
fn list_edited_by(info: &PictureInfo, frame_num: u32, minus1: &str) -> Option<Option<RefList>> {
    let edits = if minus1 == "-" { 0 } else { 1 };
    let minus1 = number(minus1);
    let first = ListEdit::Subtract(minus1);
    let other = ListEdit::Subtract(0);
    let header = Header {
        slice_type: 5,
        frame_num,
        edited: edits > 0,
        edit_count: edits,
        edits: [
            first, other, other, other, other, other, other, other, other, other, other, other,
            other, other, other, other,
        ],
        ..HEADER
    };
    if is_accepted(info)
        && info.log2_max_frame_num_minus4 <= 12
        && info.num_ref_idx_l0_active_minus1 <= 15
        && header.active_entries(info) <= 16
        && edits <= 1
        && (edits == 0 || minus1 < info.max_frame_num())
        && frame_num < info.max_frame_num()
    {
        Some(list_for(info, &header))
    } else {
        None
    }
}

fn list_text(alloc: Global, list: Option<Option<RefList>>) -> Text {
    match list {
        Some(list) => shown(alloc, list),
        None => format!(in alloc; "not accepted"),
    }
}
