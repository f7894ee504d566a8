//! A slice header as bits. H.264, 7.3.3.

ghost use Rattle.std.specs.Prelude.{◌≡◌, OnErr, OnOk};
ghost use Rattle.cb_types.specs.AcceptedInfo.{IsAcceptedBySome};
ghost use Rattle.element_tables.specs.Syntax.{Appends};
ghost use Rattle.slice_header.specs.Conditions.{HasRanges};
ghost use Rattle.slice_header.specs.Headers.{AddsReadable, IsHeader, as_read};
ghost use Rattle.slice_header.specs.Lists.{Extends};
ghost use Rattle.slice_header.specs.Spelling.{slice_header};

use super::marking_writing::put_marking;
use super::numbers_writing::{put_filter, put_numbers, put_orders};
use super::references_writing::put_references;
use super::weights_writing::put_weights;
use bit_io::BitWriter;
use cb_types::{Header, PictureInfo};
use std::alloc::AllocError;

/// Writes the header behind the first byte of its unit, by the fields of the picture info. Values of an
/// array beyond its count aren't looked at: read back, they are Subtract(0), no weights, and Reset.
pub fn write_header(
    out: &mut BitWriter,
    info: &PictureInfo,
    header: &Header,
) -> Result<(), AllocError>
    requires info { IsAcceptedBySome info.now }
    requires header { IsHeader info.now header.now }
    ensures ok { OnOk result (Appends (slice_header header.now.head info.now) (as_read info.now header.now) out.old out.new) }
    ensures reads_back { OnOk result (AddsReadable info.now (as_read info.now header.now) out.old out.new) }
    ensures err { OnErr result (out.new ≡ out.old) }
{
    let mark = out.mark();
    match put_elements(out, info, header) {
        Ok(()) => Ok(()),
        Err(error) => {
            out.back_to(mark);
            Err(error)
        }
    }
}

fn put_elements(out: &mut BitWriter, info: &PictureInfo, header: &Header) -> Result<(), AllocError>
    requires ranges { HasRanges info.now }
    requires header { IsHeader info.now header.now }
    ensures ok { OnOk result (Appends (slice_header header.now.head info.now) (as_read info.now header.now) out.old out.new) }
    ensures err { OnErr result (Extends out.old out.new) }
{
    put_numbers(out, info, header)?;
    put_orders(out, info, header)?;
    put_references(out, info, header)?;
    put_weights(out, info, header)?;
    put_marking(out, header)?;
    put_filter(out, info, header)
}
