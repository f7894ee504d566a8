//! A slice header from its bits. H.264, 7.3.3.

ghost use Rattle.std.specs.Prelude.{◌≡◌, IfSome};
ghost use Rattle.cb_types.specs.AcceptedInfo.{IsAcceptedBySome};
ghost use Rattle.element_tables.specs.Syntax.{Gives};
ghost use Rattle.slice_header.specs.Conditions.{HasRanges};
ghost use Rattle.slice_header.specs.Spelling.{slice_header};
ghost use Rattle.slice_header.specs.Headers.{IsHeader, ReadsHeader, ReadsOnly};

use super::conditions::{active_of, has_weights};
use super::marking_reading::read_marking;
use super::numbers_reading::{read_filter, read_numbers, read_orders};
use super::parts::assembled;
use super::references_reading::read_references;
use super::weights_reading::read_weights;
use bit_io::BitReader;
use cb_types::{Header, PictureInfo, UnitHead};
use element_tables::Stop;

/// Reads the header of a slice whose unit has this first byte, by the fields of the picture info. None
/// where no such header begins what is left, and then nothing is consumed.
pub fn read_header(reader: &mut BitReader, info: &PictureInfo, head: UnitHead) -> Option<Header>
    requires { IsAcceptedBySome info.now }
    ensures reads { ReadsHeader head info.now reader.old result reader.new }
    ensures only { ReadsOnly head info.now reader.old result reader.new }
    ensures header { IfSome result (λ h. IsHeader info.now h) }
    ensures head { IfSome result (λ h. h.head ≡ head) }
{
    let mut ahead = reader.fork();
    match read_elements(&mut ahead, info, head) {
        Ok(header) => {
            *reader = ahead;
            Some(header)
        }
        Err(_) => None,
    }
}

fn read_elements(reader: &mut BitReader, info: &PictureInfo, head: UnitHead) -> Result<Header, Stop>
    requires { HasRanges info.now }
    ensures { Gives (slice_header head info.now) reader.old result reader.new }
{
    let numbers = read_numbers(reader, info, head)?;
    let orders = read_orders(reader, info)?;
    let references = read_references(reader, info, numbers.slice_type % 5 == 0)?;
    let active = active_of(info, references.active_override);
    let weights = read_weights(reader, active, has_weights(info, numbers.slice_type))?;
    let marking = read_marking(reader, head)?;
    let filter = read_filter(reader, info)?;
    Ok(assembled(
        head,
        &numbers,
        &orders,
        &references,
        &weights,
        &marking,
        &filter,
    ))
}
