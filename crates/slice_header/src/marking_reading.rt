//! The marking of reference pictures from its bits. H.264, 7.3.3.3.

ghost use Rattle.std.specs.Prelude.{◌≢◌, ◌≤◌};
ghost use Rattle.element_tables.specs.Syntax.{Gives, present};
ghost use Rattle.slice_header.specs.Spelling.{dec_ref_pic_marking, idr_marking, later_marking, operation, operations};
ghost use Rattle.cb_types.specs.declared.header.Marking.TheVariants.{Sliding};

use super::references_reading::read_end;
use bit_io::BitReader;
use cb_types::{Marking, Mmco, UnitHead};
use element_tables::{Stop, read_flag, read_ue, read_ue_up_to};

/// Reads what the header says of the marking.
pub fn read_marking(reader: &mut BitReader, head: UnitHead) -> Result<Marking, Stop>
    ensures { Gives (dec_ref_pic_marking head) reader.old result reader.new }
{
    if head.ref_idc == 0 {
        return Ok(Marking::Absent);
    }
    if head.unit_type == 5 {
        return read_idr_marking(reader);
    }
    read_later_marking(reader)
}

fn read_idr_marking(reader: &mut BitReader) -> Result<Marking, Stop>
    ensures { Gives idr_marking reader.old result reader.new }
{
    let no_output = read_flag(reader)?;
    let long_term = read_flag(reader)?;
    Ok(Marking::Idr {
        no_output,
        long_term,
    })
}

fn read_later_marking(reader: &mut BitReader) -> Result<Marking, Stop>
    ensures { Gives later_marking reader.old result reader.new }
{
    let is_adaptive = read_flag(reader)?;
    read_adaptive_marking(reader, is_adaptive)
}

fn read_adaptive_marking(reader: &mut BitReader, is_present: bool) -> Result<Marking, Stop>
    ensures { Gives (present is_present operations Sliding) reader.old result reader.new }
{
    if !is_present {
        return Ok(Marking::Sliding);
    }
    read_operations(reader)
}

// Operations up to the one that ends them, at most 64.
fn read_operations(reader: &mut BitReader) -> Result<Marking, Stop>
    ensures { Gives operations reader.old result reader.new }
{
    let mut list = [Mmco::Reset; 64];
    for k in 0..64 {
        let number = read_ue_up_to(reader, 6)?;
        if number == 0 {
            return Ok(Marking::Operations { count: k, list });
        }
        list[k as usize] = read_operation(reader, number)?;
    }
    read_end(reader, 0)?;
    Ok(Marking::Operations { count: 64, list })
}

// An operation with this memory_management_control_operation.
fn read_operation(reader: &mut BitReader, number: u32) -> Result<Mmco, Stop>
    requires some { number ≢ 0 }
    requires most { number ≤ 6 }
    ensures { Gives (operation number) reader.old result reader.new }
{
    if number == 5 {
        return Ok(Mmco::Reset);
    }
    let operand = read_ue(reader)?;
    match number {
        1 => Ok(Mmco::UnmarkShort(operand)),
        2 => Ok(Mmco::UnmarkLong(operand)),
        3 => {
            let index = read_ue(reader)?;
            Ok(Mmco::MakeLong(operand, index))
        }
        4 => Ok(Mmco::MaxLong(operand)),
        _ => Ok(Mmco::CurrentLong(operand)),
    }
}
