//! The parts of a slice header, as they are read one behind the other.

ghost use Rattle.std.specs.Prelude.{◌≡◌};
ghost use Rattle.slice_header.specs.Spelling.{header_of};

use cb_types::{Header, ListEdit, Marking, UnitHead, Weights};

/// The elements through idr_pic_id.
#[derive(Clone, Copy)]
pub struct Numbers {
    pub first_mb: u32,
    pub slice_type: u32,
    pub pps: u32,
    pub frame_num: u32,
    pub idr_pic_id: u32,
}

/// The elements of the picture order count.
#[derive(Clone, Copy)]
pub struct Orders {
    pub poc_lsb: u32,
    pub delta_bottom: i32,
    pub delta_poc: [i32; 2],
}

/// The commands of the modification of the reference list: so many of the list.
#[derive(Clone, Copy)]
pub struct Edits {
    pub count: u32,
    pub list: [ListEdit; 16],
}

/// The active entries of the reference list, and its modification.
#[derive(Clone, Copy)]
pub struct References {
    pub active_override: Option<u32>,
    pub edited: bool,
    pub edits: Edits,
}

/// The quantizer and the deblocking filter.
#[derive(Clone, Copy)]
pub struct Filter {
    pub qp_delta: i32,
    pub idc: u32,
    pub alpha_half: i32,
    pub beta_half: i32,
}

/// The header that has these parts.
pub fn assembled(
    head: UnitHead,
    numbers: &Numbers,
    orders: &Orders,
    references: &References,
    weights: &Weights,
    marking: &Marking,
    filter: &Filter,
) -> Header
    ensures { result ≡ header_of head numbers.now orders.now references.now weights.now marking.now filter.now }
{
    Header {
        head,
        first_mb: numbers.first_mb,
        slice_type: numbers.slice_type,
        pps: numbers.pps,
        frame_num: numbers.frame_num,
        idr_pic_id: numbers.idr_pic_id,
        poc_lsb: orders.poc_lsb,
        delta_bottom: orders.delta_bottom,
        delta_poc: orders.delta_poc,
        active_override: references.active_override,
        edited: references.edited,
        edit_count: references.edits.count,
        edits: references.edits.list,
        weights: *weights,
        marking: *marking,
        qp_delta: filter.qp_delta,
        deblock_idc: filter.idc,
        alpha_half: filter.alpha_half,
        beta_half: filter.beta_half,
    }
}
