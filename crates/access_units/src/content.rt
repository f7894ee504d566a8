// What a NAL unit of a file tells.
ghost use Rattle.std.specs.Prelude.{◌≡◌, ◌≢◌, ◌<◌, IfOk, IfSome, MatchOption, length, vec_len};
ghost use Rattle.bit_io.specs.Payload.{payload};
ghost use Rattle.access_units.specs.Contents.{HasHeader, IsAllowed, IsPictureSet, IsSequenceSet, Tells};
ghost use Rattle.access_units.specs.Known.{IsKnownTo};
ghost use Rattle.access_units.specs.Readable.{HasHeaderIn, IsReadable, IsReadableContent, IsSetNumber};
ghost use Rattle.access_units.specs.Sets.{Sets};

use super::sets::KnownSets;
use bit_io::{BitReader, UnescapeFault, unescape};
use cb_types::{Header, UnitHead};
use marking::header_info;
use param_sets::{Pps, SetFault, Sps, read_pps, read_sps};
use slice_header::read_header;
use std::alloc::{AllocError, Global};

/// The header of a slice, with the parameter sets that it names.
#[derive(Clone, Copy, Debug, PartialEq, Eq)]
pub struct Named {
    pub header: Header,
    pub sps: Sps,
    pub pps: Pps,
}

/// What a NAL unit tells of a file.
#[derive(Clone, Copy, Debug, PartialEq, Eq)]
pub enum Content {
    /// A slice, with its header where it has one by the sets that are known.
    Slice(Option<Named>),
    SequenceSet(Sps),
    PictureSet(Pps),
    /// A unit that this decoder refuses.
    Refused,
    /// A sequence set of larger pictures than this decoder takes.
    TooLarge,
    /// A unit of another type, whatever it holds.
    Other,
}

/// What a unit tells where these sets are known.
pub fn content_of(alloc: Global, known: &KnownSets, unit: &[u8]) -> Result<Content, AllocError>
    requires some { 0 < length unit.now }
    requires known { (sets : Sets) × IsKnownTo known.now sets }
    ensures told { IfOk result (λ content. (sets : Sets) → IsKnownTo known.now sets → Tells sets unit.now content) }
    ensures readable { IfOk result IsReadableContent }
{
    let unit_type = unit[0] % 32;
    if unit_type == 1 || unit_type == 5 {
        return Ok(Content::Slice(header_of(alloc, known, unit)?));
    }
    if unit[0] >= 128 || (unit_type >= 2 && unit_type <= 4) {
        return Ok(Content::Refused);
    }
    match unit_type {
        7 => sequence_set_of(alloc, unit),
        8 => picture_set_of(alloc, unit),
        _ => Ok(Content::Other),
    }
}

// The payload of a unit, None where a byte of it is forbidden.
fn payload_of(alloc: Global, unit: &[u8]) -> Result<Option<Vec<u8>>, AllocError>
    requires { 0 < length unit.now }
    ensures value { IfOk result (λ found. MatchOption found (¬ IsAllowed unit.now) (λ bytes. IsAllowed unit.now × (bytes.items ≡ payload unit.now))) }
    ensures some { IfOk result (λ found. IfSome found (λ bytes. 0 < vec_len bytes)) }
{
    match unescape(alloc, unit) {
        Ok(payload) => Ok(Some(payload)),
        Err(UnescapeFault::Forbidden { .. }) => Ok(None),
        Err(UnescapeFault::OutOfMemory) => Err(AllocError),
    }
}

fn header_of(alloc: Global, known: &KnownSets, unit: &[u8]) -> Result<Option<Named>, AllocError>
    requires some { 0 < length unit.now }
    requires known { (sets : Sets) × IsKnownTo known.now sets }
    ensures told { IfOk result (λ named. (sets : Sets) → IsKnownTo known.now sets → HasHeader sets unit.now named) }
    ensures readable { IfOk result (λ named. IfSome named IsReadable) }
{
    let Some(payload) = payload_of(alloc, unit)? else {
        return Ok(None);
    };
    let head = UnitHead {
        ref_idc: unit[0] / 32 % 4,
        unit_type: unit[0] % 32,
    };
    Ok(named_in(known, head, &payload[1..]))
}

// The header that begins these bytes, which stand behind the first byte of a unit's payload.
fn named_in(known: &KnownSets, head: UnitHead, rbsp: &[u8]) -> Option<Named>
    requires { (sets : Sets) × IsKnownTo known.now sets }
    ensures told { (sets : Sets) → IsKnownTo known.now sets → HasHeaderIn sets head rbsp.now result }
    ensures readable { IfSome result IsReadable }
{
    let mut reader = BitReader::new(rbsp);
    let pps = known.picture_set(picture_set_number(reader.fork())?)?;
    let sps = known.sequence_set(pps.seq_parameter_set_id)?;
    let header = read_header(&mut reader, &header_info(sps, pps), head)?;
    Some(Named {
        header,
        sps: *sps,
        pps: *pps,
    })
}

// The number of the picture set that a slice header names (pic_parameter_set_id), which stands behind
// first_mb_in_slice and slice_type.
fn picture_set_number(mut reader: BitReader) -> Option<u32>
    ensures { IsSetNumber reader.entry result }
{
    reader.read_ue()?;
    reader.read_ue()?;
    reader.read_ue()
}

fn sequence_set_of(alloc: Global, unit: &[u8]) -> Result<Content, AllocError>
    requires some { 0 < length unit.now }
    ensures told { IfOk result (IsSequenceSet unit.now) }
    ensures readable { IfOk result IsReadableContent }
{
    let Some(payload) = payload_of(alloc, unit)? else {
        return Ok(Content::Refused);
    };
    Ok(match read_sps(&payload[1..]) {
        Ok(sps) => Content::SequenceSet(sps),
        Err(fault) => without_set(fault),
    })
}

// What a sequence set tells that isn't taken.
fn without_set(fault: SetFault) -> Content
    ensures large { fault ≡ SetFault.TooLarge → result ≡ Content.TooLarge }
    ensures other { fault ≢ SetFault.TooLarge → result ≡ Content.Refused }
{
    match fault {
        SetFault::TooLarge => Content::TooLarge,
        _ => Content::Refused,
    }
}

fn picture_set_of(alloc: Global, unit: &[u8]) -> Result<Content, AllocError>
    requires some { 0 < length unit.now }
    ensures told { IfOk result (IsPictureSet unit.now) }
    ensures readable { IfOk result IsReadableContent }
{
    let Some(payload) = payload_of(alloc, unit)? else {
        return Ok(Content::Refused);
    };
    Ok(match read_pps(&payload[1..]) {
        Ok(pps) => Content::PictureSet(pps),
        Err(_) => Content::Refused,
    })
}
