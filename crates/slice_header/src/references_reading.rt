//! The active entries of the reference list and its modification, from their bits. H.264, 7.3.3.1.

ghost use Rattle.std.specs.Prelude.{◌≡◌, ◌≤◌};
ghost use Rattle.cb_types.specs.AcceptedInfo.{max_frame_num};
ghost use Rattle.element_tables.specs.Syntax.{Gives, present, ue};
ghost use Rattle.slice_header.specs.Conditions.{HasRanges};
ghost use Rattle.slice_header.specs.Lists.{exactly};
ghost use Rattle.slice_header.specs.Spelling.{active_override, command, edits, no_edits, no_references, references};

use super::conditions::{active_of, max_frame_num};
use super::parts::{Edits, References};
use bit_io::BitReader;
use cb_types::{ListEdit, PictureInfo};
use element_tables::{Stop, read_flag, read_ue, read_ue_up_to};

/// Reads the elements of the reference list where they are present.
pub fn read_references(
    reader: &mut BitReader,
    info: &PictureInfo,
    is_present: bool,
) -> Result<References, Stop>
    requires ranges { HasRanges info.now }
    ensures { Gives (present is_present (references info.now) no_references) reader.old result reader.new }
{
    if !is_present {
        return Ok(References {
            active_override: None,
            edited: false,
            edits: no_edits(),
        });
    }
    read_present_references(reader, info)
}

fn no_edits() -> Edits
    ensures { result ≡ no_edits }
{
    Edits {
        count: 0,
        list: [ListEdit::Subtract(0); 16],
    }
}

fn read_present_references(reader: &mut BitReader, info: &PictureInfo) -> Result<References, Stop>
    requires ranges { HasRanges info.now }
    ensures { Gives (references info.now) reader.old result reader.new }
{
    let active_override = read_active_override(reader)?;
    let edited = read_flag(reader)?;
    let edits = read_edits(reader, info, active_of(info, active_override), edited)?;
    Ok(References {
        active_override,
        edited,
        edits,
    })
}

fn read_active_override(reader: &mut BitReader) -> Result<Option<u32>, Stop>
    ensures { Gives active_override reader.old result reader.new }
{
    let is_present = read_flag(reader)?;
    if !is_present {
        return Ok(None);
    }
    let minus1 = read_ue_up_to(reader, 15)?;
    Ok(Some(minus1))
}

fn read_edits(
    reader: &mut BitReader,
    info: &PictureInfo,
    active: u32,
    is_present: bool,
) -> Result<Edits, Stop>
    requires ranges { HasRanges info.now }
    requires active { active ≤ 16 }
    ensures { Gives (present is_present (edits (max_frame_num info.now) active) no_edits) reader.old result reader.new }
{
    if !is_present {
        return Ok(no_edits());
    }
    read_commands(reader, info, active)
}

// Commands up to the one that ends them, at most as many as entries are active.
fn read_commands(reader: &mut BitReader, info: &PictureInfo, active: u32) -> Result<Edits, Stop>
    requires ranges { HasRanges info.now }
    requires active { active ≤ 16 }
    ensures { Gives (edits (max_frame_num info.now) active) reader.old result reader.new }
{
    let mut list = [ListEdit::Subtract(0); 16];
    for k in 0..active {
        let idc = read_ue_up_to(reader, 3)?;
        if idc == 3 {
            return Ok(Edits { count: k, list });
        }
        list[k as usize] = read_command(reader, info, idc)?;
    }
    read_end(reader, 3)?;
    Ok(Edits {
        count: active,
        list,
    })
}

/// Reads the number that ends a list.
pub fn read_end(reader: &mut BitReader, wanted: u32) -> Result<u32, Stop>
    ensures { Gives (ue (exactly wanted)) reader.old result reader.new }
{
    let number = read_ue(reader)?;
    if number == wanted {
        Ok(number)
    } else {
        Err(Stop::Malformed)
    }
}

// A command with this modification_of_pic_nums_idc.
fn read_command(reader: &mut BitReader, info: &PictureInfo, idc: u32) -> Result<ListEdit, Stop>
    requires ranges { HasRanges info.now }
    requires most { idc ≤ 2 }
    ensures { Gives (command (max_frame_num info.now) idc) reader.old result reader.new }
{
    if idc == 2 {
        let number = read_ue(reader)?;
        return Ok(ListEdit::Long(number));
    }
    let difference = read_ue_up_to(reader, max_frame_num(info) - 1)?;
    if idc == 0 {
        Ok(ListEdit::Subtract(difference))
    } else {
        Ok(ListEdit::Add(difference))
    }
}
