// Slices, drawn and written.
ghost use Rattle.std.specs.Prelude.{◌≡◌, ◌+◌, ◌*◌, ◌<◌, ◌≤◌, ◌^◌, IfOk, OnOk, drop, length, vec_len};
ghost use Rattle.cb_maker.specs.Slices as slices;
ghost use Rattle.cb_maker.specs.Slices.{active_in, drawn_header, drawn_mbs, drawn_slice, head_of, in_period};
ghost use Rattle.cb_maker.specs.Stream.{IsSliceUnit, first_byte};
ghost use Rattle.cb_types.specs.Slices.{active_entries};
ghost use Rattle.mb_syntax.specs.Slice.{slice_of};
ghost use Rattle.mb_syntax.specs.SliceData.{IsSliceData};
ghost use Rattle.slice_header.specs.Headers.{IsHeader, as_read};

use super::draws::Draws;
use super::macroblocks::macroblock;
use super::stream::{INFO, PICTURE_SLICES, PICTURES, SIZE, SLICE_MBS};
use bit_io::{BitWriter, escape};
use cb_types::{Header, ListEdit, Macroblock, Marking, UnitHead, Weights};
use mb_syntax::{Slice, write_slice_data};
use slice_header::write_header;
use std::alloc::{AllocError, Global};

/// The unit of a picture's slice with this number. The macroblocks of the picture so far are kept.
pub fn slice_unit(
    alloc: Global,
    draws: &mut Draws,
    mbs: &mut Vec<Macroblock>,
    picture: u32,
    number: u32,
) -> Result<Vec<u8>, AllocError>
    requires picture { picture < PICTURES }
    requires number { number < PICTURE_SLICES }
    requires before { SLICE_MBS * number ≤ vec_len mbs.old }
    ensures unit { IfOk result (λ unit. IsSliceUnit (drawn_slice picture number draws.old.state).0 unit.items) }
    ensures state { OnOk result (draws.new.state ≡ (drawn_slice picture number draws.old.state).1) }
    ensures before { OnOk result (vec_len mbs.new ≡ SLICE_MBS * number + SLICE_MBS) }
{
    let header = header(draws, picture, number);
    put_mbs(draws, mbs, &header)?;
    written(alloc, &header, mbs)
}

fn header(draws: &mut Draws, picture: u32, number: u32) -> Header
    requires picture { picture < PICTURES }
    requires number { number < PICTURE_SLICES }
    ensures { drawn_header picture number draws.old.state ≡ (result, draws.new.state) }
{
    let qp_delta = draws.draw_around(10);
    let alpha_half = draws.draw_around(2);
    let beta_half = draws.draw_around(2);
    Header {
        head: head(picture),
        first_mb: SLICE_MBS * number,
        slice_type: slice_type(picture),
        pps: 0,
        frame_num: picture % 30 % 16,
        idr_pic_id: idr_pic_id(picture),
        poc_lsb: 0,
        delta_bottom: 0,
        delta_poc: [0; 2],
        active_override: active_override(picture),
        edited: false,
        edit_count: 0,
        edits: [ListEdit::Subtract(0); 16],
        weights: Weights::NONE,
        marking: marking(picture),
        qp_delta,
        deblock_idc: 0,
        alpha_half,
        beta_half,
    }
}

// Whether the picture is an IDR picture.
fn begins_period(picture: u32) -> bool
    ensures { result ≡ slices.begins_period picture }
{
    picture % 30 == 0
}

fn head(picture: u32) -> UnitHead
    ensures { result ≡ head_of picture }
{
    if begins_period(picture) {
        UnitHead {
            ref_idc: 3,
            unit_type: 5,
        }
    } else {
        UnitHead {
            ref_idc: 2,
            unit_type: 1,
        }
    }
}

fn slice_type(picture: u32) -> u32
    ensures { result ≡ slices.slice_type picture }
{
    if begins_period(picture) { 7 } else { 5 }
}

fn idr_pic_id(picture: u32) -> u32
    ensures { result ≡ slices.idr_pic_id picture }
{
    if begins_period(picture) {
        picture / 30 % 2
    } else {
        0
    }
}

fn active_override(picture: u32) -> Option<u32>
    ensures { result ≡ slices.active_override picture }
{
    let place = picture % 30;
    if place == 0 {
        None
    } else {
        Some(place.min(3) - 1)
    }
}

fn marking(picture: u32) -> Marking
    ensures { result ≡ slices.marking picture }
{
    if begins_period(picture) {
        Marking::Idr {
            no_output: false,
            long_term: false,
        }
    } else {
        Marking::Sliding
    }
}

// Puts the macroblocks of a slice with this header behind those before it in the picture.
fn put_mbs(draws: &mut Draws, mbs: &mut Vec<Macroblock>, header: &Header) -> Result<(), AllocError>
    requires before { header.now.first_mb ≤ vec_len mbs.old }
    requires within { header.now.first_mb + SLICE_MBS ≤ 396 }
    requires some { 1 ≤ active_entries INFO header.now }
    requires few { active_entries INFO header.now ≤ 16 }
    ensures drawn { OnOk result (drawn_mbs header.now draws.old.state
        ≡ (drop header.now.first_mb mbs.new.items, draws.new.state)) }
    ensures length { OnOk result (vec_len mbs.new ≡ header.now.first_mb + SLICE_MBS) }
{
    let slice = Slice::new(&INFO, header, SIZE);
    mbs.truncate(header.first_mb as usize);
    for behind in 0..SLICE_MBS {
        mbs.push(macroblock(draws, &slice, header.first_mb + behind))?;
    }
    Ok(())
}

// The unit with this header and the last macroblocks of these.
fn written(alloc: Global, header: &Header, mbs: &[Macroblock]) -> Result<Vec<u8>, AllocError>
    requires first { first_byte header.now.head < 2 ^ 8 }
    requires header { IsHeader INFO header.now }
    requires same { as_read INFO header.now ≡ header.now }
    requires length { length mbs.now ≡ header.now.first_mb + SLICE_MBS }
    requires mbs { IsSliceData (slice_of INFO header.now SIZE) (drop header.now.first_mb mbs.now) }
    ensures { IfOk result (λ unit.
        IsSliceUnit (record { header = header.now; mbs = drop header.now.first_mb mbs.now }) unit.items) }
{
    let mut out = BitWriter::new(alloc);
    let first_byte = 32 * u32::from(header.head.ref_idc) + u32::from(header.head.unit_type);
    out.put_u(first_byte, 8)?;
    write_header(&mut out, &INFO, header)?;
    write_slice_data(&mut out, &INFO, header, SIZE, mbs, SLICE_MBS)?;
    escape(alloc, out.bytes())
}
