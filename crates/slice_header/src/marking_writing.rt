//! The marking of reference pictures as bits. H.264, 7.3.3.3.

ghost use Rattle.std.specs.Prelude.{OnErr, OnOk, take};
ghost use Rattle.cb_types.specs.declared.header.Marking.TheVariants.{Idr, Operations};
ghost use Rattle.cb_types.specs.declared.header.Mmco.TheVariants.{Reset};
ghost use Rattle.element_tables.specs.Syntax.{Appends};
ghost use Rattle.slice_header.specs.Headers.{AreFirst, IsMarkingOf, IsOperation, marking_as_read};
ghost use Rattle.slice_header.specs.Lists.{AppendsItem, Extends, padded};
ghost use Rattle.slice_header.specs.Spelling.{dec_ref_pic_marking, idr_marking, later_marking, operations};
ghost use Rattle.slice_header.specs.Spelling as spelling;

use super::references_writing::put_numbered;
use bit_io::BitWriter;
use cb_types::{Header, Marking, Mmco};
use element_tables::put_flag;
use std::alloc::AllocError;

/// Writes what the header says of the marking.
pub fn put_marking(out: &mut BitWriter, header: &Header) -> Result<(), AllocError>
    requires { IsMarkingOf header.now.head header.now.marking }
    ensures ok { OnOk result (Appends (dec_ref_pic_marking header.now.head) (marking_as_read header.now.marking) out.old out.new) }
    ensures err { OnErr result (Extends out.old out.new) }
{
    match header.marking {
        Marking::Absent => Ok(()),
        Marking::Idr {
            no_output,
            long_term,
        } => put_idr_marking(out, no_output, long_term),
        Marking::Sliding => put_flag(out, false),
        Marking::Operations { count, list } => put_adaptive_marking(out, count, &list),
    }
}

fn put_idr_marking(out: &mut BitWriter, no_output: bool, long_term: bool) -> Result<(), AllocError>
    ensures ok { OnOk result (Appends idr_marking (Idr no_output long_term) out.old out.new) }
    ensures err { OnErr result (Extends out.old out.new) }
{
    put_flag(out, no_output)?;
    put_flag(out, long_term)
}

fn put_adaptive_marking(out: &mut BitWriter, count: u32, list: &[Mmco]) -> Result<(), AllocError>
    requires { AreFirst 64 IsOperation count list.now }
    ensures ok { OnOk result (Appends later_marking (Operations count (padded 64 Reset (take count list.now))) out.old out.new) }
    ensures err { OnErr result (Extends out.old out.new) }
{
    put_flag(out, true)?;
    put_operations(out, count, list)
}

fn put_operations(out: &mut BitWriter, count: u32, list: &[Mmco]) -> Result<(), AllocError>
    requires { AreFirst 64 IsOperation count list.now }
    ensures ok { OnOk result (Appends operations (Operations count (padded 64 Reset (take count list.now))) out.old out.new) }
    ensures err { OnErr result (Extends out.old out.new) }
{
    for operation in &list[..count as usize] {
        put_operation(out, *operation)?;
    }
    out.put_ue(0)
}

// An operation behind its memory_management_control_operation.
fn put_operation(out: &mut BitWriter, operation: Mmco) -> Result<(), AllocError>
    requires { IsOperation operation }
    ensures ok { OnOk result (AppendsItem 6 0 spelling.operation operation out.old out.new) }
    ensures err { OnErr result (Extends out.old out.new) }
{
    match operation {
        Mmco::UnmarkShort(difference) => put_numbered(out, 1, difference),
        Mmco::UnmarkLong(number) => put_numbered(out, 2, number),
        Mmco::MakeLong(difference, index) => {
            put_numbered(out, 3, difference)?;
            out.put_ue(index)
        }
        Mmco::MaxLong(plus1) => put_numbered(out, 4, plus1),
        Mmco::Reset => out.put_ue(5),
        Mmco::CurrentLong(index) => put_numbered(out, 6, index),
    }
}
