// Parameter sets, from the byte behind the first of their units. H.264, 7.3.2.1.1 and 7.3.2.2.
use crate::line::{Line, bytes_of};
use crate::told::{Text, in_hex, shown};
use cb_types::SizeMbs;
use param_sets::{SetFault, read_pps, read_sps, write_pps, write_sps};
use std::alloc::Global;

/// Reads a set, if the line asks for it.
pub fn answer(alloc: Global, line: Line<'_>) -> Option<Text> {
    let [first, ..] = line.words;
    match line.name {
        "sps" => Some(sps(alloc, first)),
        "sps_size" => Some(sps_size(alloc, first)),
        "sps_back" => Some(sps_back(alloc, first)),
        "pps" => Some(pps(alloc, first)),
        "pps_back" => Some(pps_back(alloc, first)),
        _ => None,
    }
}

fn sps(alloc: Global, bytes: &str) -> Text {
    let bytes = bytes_of(alloc, bytes)?;
    shown(alloc, Some(read_sps(&bytes)))
}

fn sps_size(alloc: Global, bytes: &str) -> Text {
    let bytes = bytes_of(alloc, bytes)?;
    shown(alloc, Some(size_in(&bytes)))
}

fn size_in(bytes: &[u8]) -> Result<SizeMbs, SetFault> {
    Ok(read_sps(bytes)?.size())
}

fn sps_back(alloc: Global, bytes: &str) -> Text {
    let bytes = bytes_of(alloc, bytes)?;
    match read_sps(&bytes) {
        Ok(sps) => in_hex(alloc, &write_sps(alloc, &sps)?),
        Err(fault) => shown(alloc, Some(fault)),
    }
}

fn pps(alloc: Global, bytes: &str) -> Text {
    let bytes = bytes_of(alloc, bytes)?;
    shown(alloc, Some(read_pps(&bytes)))
}

fn pps_back(alloc: Global, bytes: &str) -> Text {
    let bytes = bytes_of(alloc, bytes)?;
    match read_pps(&bytes) {
        Ok(pps) => in_hex(alloc, &write_pps(alloc, &pps)?),
        Err(fault) => shown(alloc, Some(fault)),
    }
}
