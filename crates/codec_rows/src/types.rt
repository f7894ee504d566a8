// What the shared types tell of pictures, slices and macroblocks.
use crate::infos::info_of;
use crate::line::{Line, number};
use crate::told::{Text, shown};
use cb_types::{
    Header, ListEdit, Marking, PictureInfo, Reference, SizeMbs, UnitHead, Weights, beside, block_x,
    block_y, first_refused_field,
};
use std::alloc::Global;

/// Asks a type, if the line does.
pub fn answer(alloc: Global, line: Line<'_>) -> Option<Text> {
    let [first, second, third, fourth, ..] = line.words;
    let a = number(first);
    let b = number(second);
    let c = number(third);
    match line.name {
        "reference" => Some(reference(alloc, a)),
        "max_frame_num" => Some(max_frame_num(alloc, &info_of(first))),
        "refused_field" => Some(shown(alloc, first_refused_field(a, b, &info_of(third)))),
        "slice" => Some(slice(alloc, a, b, c, &info_of(fourth))),
        "size" => Some(size(alloc, a, b)),
        "beside" => Some(shown(alloc, neighbours(a, b, c))),
        "block_place" if a < 16 => Some(shown(alloc, Some((block_x(a), block_y(a))))),
        _ => None,
    }
}

fn reference(alloc: Global, surface: u32) -> Text {
    let reference = Reference {
        surface,
        ..Reference::UNUSED
    };
    let is_unused = reference.is_unused();
    let is_absent = reference.is_absent();
    format!(in alloc; "unused {is_unused}, absent {is_absent}")
}

fn max_frame_num(alloc: Global, info: &PictureInfo) -> Text {
    if info.log2_max_frame_num_minus4 <= 12 {
        shown(alloc, Some(info.max_frame_num()))
    } else {
        format!(in alloc; "none")
    }
}

/// A header of a slice of an IDR picture, whose type is I in each slice.
pub const HEADER: Header = Header {
    head: UnitHead {
        ref_idc: 3,
        unit_type: 5,
    },
    first_mb: 0,
    slice_type: 7,
    pps: 0,
    frame_num: 0,
    idr_pic_id: 0,
    poc_lsb: 0,
    delta_bottom: 0,
    delta_poc: [0; 2],
    active_override: None,
    edited: false,
    edit_count: 0,
    edits: [ListEdit::Subtract(0); 16],
    weights: Weights::NONE,
    marking: Marking::Idr {
        no_output: false,
        long_term: false,
    },
    qp_delta: 0,
    deblock_idc: 0,
    alpha_half: 0,
    beta_half: 0,
};

// What a header with this slice_type in a unit of this nal_unit_type tells. It has so many active entries and one, if
// any.
fn slice(alloc: Global, slice_type: u32, unit_type: u32, active: u32, info: &PictureInfo) -> Text {
    let head = UnitHead {
        ref_idc: 3,
        unit_type: unit_type.min(31) as u8,
    };
    let header = Header {
        head,
        slice_type,
        ..HEADER
    };
    let is_p = header.is_p();
    let is_idr = header.is_idr();
    let entries = entries_of(active, info);
    format!(in alloc; "P {is_p}, IDR {is_idr}, {entries} entries")
}

fn entries_of(active: u32, info: &PictureInfo) -> u32 {
    if active <= 31 {
        let header = Header {
            active_override: Some(active),
            ..HEADER
        };
        return header.active_entries(info);
    }
    if info.num_ref_idx_l0_active_minus1 > 31 {
        return 0;
    }
    HEADER.active_entries(info)
}

fn size(alloc: Global, width: u32, height: u32) -> Text {
    let size = SizeMbs { width, height };
    if !size.is_within_limits() {
        return format!(in alloc; "not within limits");
    }
    let macroblocks = size.macroblocks();
    let luma = (size.luma_width(), size.luma_height());
    let chroma = (size.chroma_width(), size.chroma_height());
    format!(in alloc; "{macroblocks} macroblocks, luma {luma:?}, chroma {chroma:?}")
}

// The neighbours A, B, C and D of a macroblock.
fn neighbours(width: u32, height: u32, macroblock: u32) -> Option<[Option<u32>; 4]> {
    let size = SizeMbs { width, height };
    if size.is_within_limits() && macroblock < size.macroblocks() {
        Some([
            beside(size, macroblock, 0),
            beside(size, macroblock, 1),
            beside(size, macroblock, 2),
            beside(size, macroblock, 3),
        ])
    } else {
        None
    }
}
