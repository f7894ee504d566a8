//! The prediction weight table as bits. H.264, 7.3.3.2.

ghost use Rattle.std.specs.Prelude.{IfSome, OnErr, OnOk, take};
ghost use Rattle.cb_types.specs.Slices.{active_entries};
ghost use Rattle.element_tables.specs.Syntax.{Appends, present};
ghost use Rattle.slice_header.specs.Conditions as conditions;
ghost use Rattle.slice_header.specs.Headers.{AreChroma, AreFirst, AreWeights, IsEntry, IsHeader, IsWeight, weights_as_read};
ghost use Rattle.slice_header.specs.Lists.{Extends, flagged, padded};
ghost use Rattle.slice_header.specs.Spelling.{all_entries, chroma_weights, entry_weights, no_entry, no_weights, pred_weight_table};
ghost use Rattle.slice_header.specs.Spelling as spelling;

use super::conditions::has_weights;
use bit_io::BitWriter;
use cb_types::{EntryWeights, Header, PictureInfo, Weight, Weights};
use element_tables::put_flag;
use std::alloc::AllocError;

/// Writes the weights of the active entries where they are present.
pub fn put_weights(
    out: &mut BitWriter,
    info: &PictureInfo,
    header: &Header,
) -> Result<(), AllocError>
    requires { IsHeader info.now header.now }
    ensures ok { OnOk result (Appends (present (conditions.has_weights info.now header.now.slice_type) (pred_weight_table (active_entries info.now header.now)) no_weights) (weights_as_read (active_entries info.now header.now) header.now.weights) out.old out.new) }
    ensures err { OnErr result (Extends out.old out.new) }
{
    if !has_weights(info, header.slice_type) {
        return Ok(());
    }
    put_table(out, header.active_entries(info), &header.weights)
}

fn put_table(out: &mut BitWriter, active: u32, weights: &Weights) -> Result<(), AllocError>
    requires { AreWeights active weights.now }
    ensures ok { OnOk result (Appends (pred_weight_table active) (weights_as_read active weights.now) out.old out.new) }
    ensures err { OnErr result (Extends out.old out.new) }
{
    out.put_ue(weights.luma_denom)?;
    out.put_ue(weights.chroma_denom)?;
    put_entries(out, active, &weights.entries)
}

fn put_entries(out: &mut BitWriter, active: u32, entries: &[EntryWeights]) -> Result<(), AllocError>
    requires { AreFirst 16 IsEntry active entries.now }
    ensures ok { OnOk result (Appends (all_entries active) (padded 16 no_entry (take active entries.now)) out.old out.new) }
    ensures err { OnErr result (Extends out.old out.new) }
{
    for entry in &entries[..active as usize] {
        put_entry(out, *entry)?;
    }
    Ok(())
}

fn put_entry(out: &mut BitWriter, entry: EntryWeights) -> Result<(), AllocError>
    requires { IsEntry entry }
    ensures ok { OnOk result (Appends entry_weights entry out.old out.new) }
    ensures err { OnErr result (Extends out.old out.new) }
{
    put_luma(out, entry.luma)?;
    put_chroma(out, entry.chroma)
}

fn put_luma(out: &mut BitWriter, luma: Option<Weight>) -> Result<(), AllocError>
    requires { IfSome luma IsWeight }
    ensures ok { OnOk result (Appends (flagged spelling.weight) luma out.old out.new) }
    ensures err { OnErr result (Extends out.old out.new) }
{
    match luma {
        Some(weight) => {
            put_flag(out, true)?;
            put_weight(out, weight)
        }
        None => put_flag(out, false),
    }
}

fn put_chroma(out: &mut BitWriter, chroma: Option<[Weight; 2]>) -> Result<(), AllocError>
    requires { IfSome chroma AreChroma }
    ensures ok { OnOk result (Appends (flagged chroma_weights) chroma out.old out.new) }
    ensures err { OnErr result (Extends out.old out.new) }
{
    match chroma {
        Some(weights) => {
            put_flag(out, true)?;
            put_both(out, weights)
        }
        None => put_flag(out, false),
    }
}

fn put_both(out: &mut BitWriter, weights: [Weight; 2]) -> Result<(), AllocError>
    requires { AreChroma weights }
    ensures ok { OnOk result (Appends chroma_weights weights out.old out.new) }
    ensures err { OnErr result (Extends out.old out.new) }
{
    let [cb, cr] = weights;
    put_weight(out, cb)?;
    put_weight(out, cr)
}

fn put_weight(out: &mut BitWriter, weight: Weight) -> Result<(), AllocError>
    requires { IsWeight weight }
    ensures ok { OnOk result (Appends spelling.weight weight out.old out.new) }
    ensures err { OnErr result (Extends out.old out.new) }
{
    out.put_se(weight.weight)?;
    out.put_se(weight.offset)
}
