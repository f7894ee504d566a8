//! The prediction weight table from its bits. H.264, 7.3.3.2.

ghost use Rattle.std.specs.Prelude.{◌≤◌};
ghost use Rattle.element_tables.specs.Syntax.{Gives, present};
ghost use Rattle.slice_header.specs.Lists.{flagged};
ghost use Rattle.slice_header.specs.Spelling.{all_entries, chroma_weights, entry_weights, no_weights, pred_weight_table, weight};

use bit_io::BitReader;
use cb_types::{EntryWeights, Weight, Weights};
use element_tables::{Stop, read_flag, read_se_between, read_ue_up_to};

/// Reads the weights of so many entries where they are present.
pub fn read_weights(reader: &mut BitReader, active: u32, is_present: bool) -> Result<Weights, Stop>
    requires { active ≤ 16 }
    ensures { Gives (present is_present (pred_weight_table active) no_weights) reader.old result reader.new }
{
    if !is_present {
        return Ok(Weights::NONE);
    }
    read_table(reader, active)
}

fn read_table(reader: &mut BitReader, active: u32) -> Result<Weights, Stop>
    requires { active ≤ 16 }
    ensures { Gives (pred_weight_table active) reader.old result reader.new }
{
    let luma_denom = read_ue_up_to(reader, 7)?;
    let chroma_denom = read_ue_up_to(reader, 7)?;
    let entries = read_entries(reader, active)?;
    Ok(Weights {
        luma_denom,
        chroma_denom,
        entries,
    })
}

fn read_entries(reader: &mut BitReader, active: u32) -> Result<[EntryWeights; 16], Stop>
    requires { active ≤ 16 }
    ensures { Gives (all_entries active) reader.old result reader.new }
{
    let mut entries = Weights::NONE.entries;
    for k in 0..active as usize {
        entries[k] = read_entry(reader)?;
    }
    Ok(entries)
}

fn read_entry(reader: &mut BitReader) -> Result<EntryWeights, Stop>
    ensures { Gives entry_weights reader.old result reader.new }
{
    let luma = read_luma(reader)?;
    let chroma = read_chroma(reader)?;
    Ok(EntryWeights { luma, chroma })
}

fn read_luma(reader: &mut BitReader) -> Result<Option<Weight>, Stop>
    ensures { Gives (flagged weight) reader.old result reader.new }
{
    let is_present = read_flag(reader)?;
    if !is_present {
        return Ok(None);
    }
    let weight = read_weight(reader)?;
    Ok(Some(weight))
}

fn read_chroma(reader: &mut BitReader) -> Result<Option<[Weight; 2]>, Stop>
    ensures { Gives (flagged chroma_weights) reader.old result reader.new }
{
    let is_present = read_flag(reader)?;
    if !is_present {
        return Ok(None);
    }
    let weights = read_both(reader)?;
    Ok(Some(weights))
}

fn read_both(reader: &mut BitReader) -> Result<[Weight; 2], Stop>
    ensures { Gives chroma_weights reader.old result reader.new }
{
    let cb = read_weight(reader)?;
    let cr = read_weight(reader)?;
    Ok([cb, cr])
}

fn read_weight(reader: &mut BitReader) -> Result<Weight, Stop>
    ensures { Gives weight reader.old result reader.new }
{
    let weight = read_se_between(reader, -128, 127)?;
    let offset = read_se_between(reader, -128, 127)?;
    Ok(Weight { weight, offset })
}
