//! The active entries of the reference list and its modification as bits. H.264, 7.3.3.1.

ghost use Rattle.std.specs.Prelude.{◌≡◌, ◌≤◌, ◌++◌, IfSome, OnErr, OnOk};
ghost use Rattle.bit_io.specs.Codewords as codewords;
ghost use Rattle.bit_io.specs.Codewords.{IsUe};
ghost use Rattle.cb_types.specs.AcceptedInfo.{max_frame_num};
ghost use Rattle.cb_types.specs.Slices.{active_entries, is_p};
ghost use Rattle.element_tables.specs.Syntax.{Appends, present};
ghost use Rattle.slice_header.specs.Conditions.{HasRanges};
ghost use Rattle.slice_header.specs.Headers.{IsEdit, IsHeader, as_read};
ghost use Rattle.slice_header.specs.Lists.{AppendsItem, Extends};
ghost use Rattle.slice_header.specs.Parts.{edits_of, references_of};
ghost use Rattle.slice_header.specs.Spelling.{active_override, command, edits, no_edits, no_references, references};

use bit_io::BitWriter;
use cb_types::{Header, ListEdit, PictureInfo};
use element_tables::put_flag;
use std::alloc::AllocError;

/// Writes the elements of the reference list where they are present.
pub fn put_references(
    out: &mut BitWriter,
    info: &PictureInfo,
    header: &Header,
) -> Result<(), AllocError>
    requires ranges { HasRanges info.now }
    requires header { IsHeader info.now header.now }
    ensures ok { OnOk result (Appends (present (is_p header.now) (references info.now) no_references) (references_of (as_read info.now header.now)) out.old out.new) }
    ensures err { OnErr result (Extends out.old out.new) }
{
    if !header.is_p() {
        return Ok(());
    }
    put_present_references(out, info, header)
}

fn put_present_references(
    out: &mut BitWriter,
    info: &PictureInfo,
    header: &Header,
) -> Result<(), AllocError>
    requires ranges { HasRanges info.now }
    requires header { IsHeader info.now header.now }
    ensures ok { OnOk result (Appends (references info.now) (references_of (as_read info.now header.now)) out.old out.new) }
    ensures err { OnErr result (Extends out.old out.new) }
{
    put_active_override(out, header.active_override)?;
    put_flag(out, header.edited)?;
    put_edits(out, info, header)
}

fn put_active_override(out: &mut BitWriter, minus1: Option<u32>) -> Result<(), AllocError>
    requires { IfSome minus1 (λ v. v ≤ 15) }
    ensures ok { OnOk result (Appends active_override minus1 out.old out.new) }
    ensures err { OnErr result (Extends out.old out.new) }
{
    match minus1 {
        Some(minus1) => {
            put_flag(out, true)?;
            out.put_ue(minus1)
        }
        None => put_flag(out, false),
    }
}

fn put_edits(out: &mut BitWriter, info: &PictureInfo, header: &Header) -> Result<(), AllocError>
    requires ranges { HasRanges info.now }
    requires header { IsHeader info.now header.now }
    ensures ok { OnOk result (Appends (present header.now.edited (edits (max_frame_num info.now) (active_entries info.now header.now)) no_edits) (edits_of (as_read info.now header.now)) out.old out.new) }
    ensures err { OnErr result (Extends out.old out.new) }
{
    if !header.edited {
        return Ok(());
    }
    put_commands(out, info, header)
}

fn put_commands(out: &mut BitWriter, info: &PictureInfo, header: &Header) -> Result<(), AllocError>
    requires ranges { HasRanges info.now }
    requires header { IsHeader info.now header.now }
    ensures ok { OnOk result (Appends (edits (max_frame_num info.now) (active_entries info.now header.now)) (edits_of (as_read info.now header.now)) out.old out.new) }
    ensures err { OnErr result (Extends out.old out.new) }
{
    for edit in &header.edits[..header.edit_count as usize] {
        put_command(out, info, *edit)?;
    }
    out.put_ue(3)
}

// A command behind its modification_of_pic_nums_idc.
fn put_command(out: &mut BitWriter, info: &PictureInfo, edit: ListEdit) -> Result<(), AllocError>
    requires ranges { HasRanges info.now }
    requires edit { IsEdit info.now edit }
    ensures ok { OnOk result (AppendsItem 3 3 (command (max_frame_num info.now)) edit out.old out.new) }
    ensures err { OnErr result (Extends out.old out.new) }
{
    match edit {
        ListEdit::Subtract(difference) => put_numbered(out, 0, difference),
        ListEdit::Add(difference) => put_numbered(out, 1, difference),
        ListEdit::Long(number) => put_numbered(out, 2, number),
    }
}

/// Writes a number, and a value behind it.
pub fn put_numbered(out: &mut BitWriter, number: u32, value: u32) -> Result<(), AllocError>
    requires number { IsUe number }
    requires value { IsUe value }
    ensures ok { OnOk result (out.new ≡ (out.old ++ codewords.ue number) ++ codewords.ue value) }
    ensures err { OnErr result (Extends out.old out.new) }
{
    out.put_ue(number)?;
    out.put_ue(value)
}
