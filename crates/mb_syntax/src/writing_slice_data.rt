// Writing the macroblocks of a slice (H.264, 7.3.4 and 7.3.5).
ghost use Rattle.std.specs.Prelude.{◌≡◌, ◌+◌, ◌<◌, ◌≤◌, ◌^◌, ◌++◌, ◌∷◌, ◌==◌, if◌then◌else◌, [], IfOk, List, OnErr, OnOk, drop, length, take};
ghost use Rattle.bit_io.specs.Codewords.{ue};
ghost use Rattle.cavlc.specs.Parts.{IsLonger};
ghost use Rattle.cb_types.specs.SizeMbs.{IsWithinLimits};
ghost use Rattle.cb_types.specs.Slices.{active_entries};
ghost use Rattle.cb_types.specs.declared.macroblock.Macroblock.{Macroblock};
ghost use Rattle.mb_syntax.specs.Around.{AreColumns, IsAround, IsCountOf};
ghost use Rattle.mb_syntax.specs.Kinds as kinds;
ghost use Rattle.mb_syntax.specs.MacroblockLayer.{IsCoded, IsQpDelta, mb_bits, qp_delta_bits};
ghost use Rattle.mb_syntax.specs.Progress.{AreWritten, IsNext};
ghost use Rattle.mb_syntax.specs.Slice.{slice_of};
ghost use Rattle.mb_syntax.specs.SliceData.{IsSliceData, SoFar, next_bits, slice_bits};
ghost use Rattle.mb_syntax.specs.SliceData as slices;

use super::counts::{Around, Columns, Counts};
use super::macroblock::{has_qp_delta, is_pcm};
use super::slice::Slice;
use super::writing_kinds::put_kind;
use super::writing_residual::put_residual;
use bit_io::BitWriter;
use cb_types::{Header, Macroblock, MbKind, PictureInfo, SizeMbs};
use std::alloc::AllocError;

/// Writes so many of the picture's macroblocks, from `first_mb` on, as those of a slice with this header, and the
/// trailing bits: what [`read_slice_data`](crate::read_slice_data) reads, without a last run of 0. An `Err` leaves
/// what was written before as it was.
pub fn write_slice_data(
    out: &mut BitWriter,
    info: &PictureInfo,
    header: &Header,
    size: SizeMbs,
    from: &[Macroblock],
    count: u32,
) -> Result<(), AllocError>
    requires size { IsWithinLimits size }
    requires active { active_entries info.now header.now ≤ 16 }
    requires room { header.now.first_mb + count ≤ length from.now }
    requires spelling { IsSliceData (slice_of info.now header.now size) (take count (drop header.now.first_mb from.now)) }
    ensures ok { OnOk result (out.new ≡ out.old ++ slice_bits (slice_of info.now header.now size) (length out.old) (take count (drop header.now.first_mb from.now))) }
    ensures err { OnErr result (out.new ≡ out.old) }
{
    let slice = Slice::new(info, header, size);
    let first = slice.first as usize;
    let mark = out.mark();
    let written = put_slice_data(out, &slice, &from[first..first + count as usize]);
    if written.is_err() {
        out.back_to(mark);
    }
    written
}

fn put_slice_data(out: &mut BitWriter, slice: &Slice, mbs: &[Macroblock]) -> Result<(), AllocError>
    requires active { 1 ≤ slice.now.active }
    requires few { slice.now.active ≤ 16 }
    requires some { 1 ≤ slice.now.width }
    requires narrow { slice.now.width ≤ 256 }
    requires fits { slice.now.first + slice.now.left < 2 ^ 31 }
    requires spelling { IsSliceData slice.now mbs.now }
    ensures ok { OnOk result (out.new ≡ out.old ++ slice_bits slice.now (length out.old) mbs.now) }
    ensures err { OnErr result (IsLonger out.old out.new) }
{
    let run = put_macroblocks(out, slice, mbs)?;
    put_last_run(out, run)?;
    out.finish()
}

// Writes the last mb_skip_run, which is there where skipped macroblocks end the slice.
fn put_last_run(out: &mut BitWriter, run: u32) -> Result<(), AllocError>
    requires { run < 2 ^ 31 }
    ensures ok { OnOk result (out.new ≡ out.old ++ (if run == 0 then [] else ue run)) }
    ensures err { OnErr result (out.new ≡ out.old) }
{
    if run == 0 {
        return Ok(());
    }
    out.put_ue(run)
}

// Writes macroblocks, and gives how many of the last of them are skipped.
fn put_macroblocks(
    out: &mut BitWriter,
    slice: &Slice,
    mbs: &[Macroblock],
) -> Result<u32, AllocError>
    requires active { 1 ≤ slice.now.active }
    requires few { slice.now.active ≤ 16 }
    requires some { 1 ≤ slice.now.width }
    requires narrow { slice.now.width ≤ 256 }
    requires fits { slice.now.first + slice.now.left < 2 ^ 31 }
    requires spelling { IsSliceData slice.now mbs.now }
    ensures ok { IfOk result (λ run. AreWritten slice.now mbs.now out.old out.new run × (run < 2 ^ 31)) }
    ensures err { OnErr result (IsLonger out.old out.new) }
{
    let mut columns = Columns::new();
    let mut run = 0;
    for (k, mb) in mbs.iter().enumerate() {
        run = put_next(out, slice, &mut columns, k as u32, run, mb)?;
    }
    Ok(run)
}

// Writes the macroblock that is so many behind the slice's first, of which so many right before are skipped and
// not yet counted, and gives how many are then.
fn put_next(
    out: &mut BitWriter,
    slice: &Slice,
    columns: &mut Columns,
    behind: u32,
    run: u32,
    mb: &Macroblock,
) -> Result<u32, AllocError>
    requires active { 1 ≤ slice.now.active }
    requires few { slice.now.active ≤ 16 }
    requires some { 1 ≤ slice.now.width }
    requires narrow { slice.now.width ≤ 256 }
    requires fits { slice.now.first + behind < 2 ^ 31 }
    requires run { run ≤ behind }
    requires spelling { (at : SoFar) × IsNext slice.now at out.old columns.old behind run mb.now }
    ensures ok { (at : SoFar) → IsNext slice.now at out.old columns.old behind run mb.now →
        IfOk result (λ next. (out.new ≡ out.old ++ next_bits slice.now at mb.now) × (next ≡ (slices.behind slice.now at mb.now).run)) }
    ensures columns { (at : SoFar) → IsNext slice.now at out.old columns.old behind run mb.now →
        OnOk result (AreColumns slice.now (at.before ++ mb.now ∷ []) columns.new) }
    ensures run { IfOk result (λ next. next ≤ behind + 1) }
    ensures err { OnErr result (IsLonger out.old out.new) }
{
    if is_skip(&mb.kind) {
        columns.keep(slice, behind, Counts::NONE);
        return Ok(run + 1);
    }
    put_run(out, slice, run)?;
    let around = columns.around(slice, behind);
    let counts = put_macroblock(out, slice, &around, mb)?;
    columns.keep(slice, behind, counts);
    Ok(0)
}

fn is_skip(kind: &MbKind) -> bool
    ensures { result ≡ kinds.is_skip kind.now }
{
    matches!(kind, MbKind::Skip)
}

// Writes mb_skip_run in a P slice.
fn put_run(out: &mut BitWriter, slice: &Slice, run: u32) -> Result<(), AllocError>
    requires { run < 2 ^ 31 }
    ensures ok { OnOk result (out.new ≡ out.old ++ (if slice.now.is_p then ue run else [])) }
    ensures err { OnErr result (out.new ≡ out.old) }
{
    if !slice.is_p {
        return Ok(());
    }
    out.put_ue(run)
}

// Writes macroblock_layer, and gives how many levels each block has.
fn put_macroblock(
    out: &mut BitWriter,
    slice: &Slice,
    around: &Around,
    mb: &Macroblock,
) -> Result<Counts, AllocError>
    requires active { 1 ≤ slice.now.active }
    requires few { slice.now.active ≤ 16 }
    requires spelling { (before : List Macroblock) × IsAround slice.now before around.now × IsCoded slice.now before mb.now }
    ensures ok { (before : List Macroblock) → IsAround slice.now before around.now → IsCoded slice.now before mb.now →
        OnOk result (out.new ≡ out.old ++ mb_bits slice.now (length out.old) before mb.now) }
    ensures counts { IfOk result (λ counts. IsCountOf counts mb.now) }
    ensures err { OnErr result (IsLonger out.old out.new) }
{
    put_kind(out, slice, &mb.kind)?;
    put_qp_delta(out, &mb.kind, mb.qp_delta)?;
    let counts = put_residual(out, around, mb)?;
    if is_pcm(&mb.kind) {
        return Ok(Counts::PCM);
    }
    Ok(counts)
}

fn put_qp_delta(out: &mut BitWriter, kind: &MbKind, qp_delta: i32) -> Result<(), AllocError>
    requires { IsQpDelta kind.now qp_delta }
    ensures ok { OnOk result (out.new ≡ out.old ++ qp_delta_bits kind.now qp_delta) }
    ensures err { OnErr result (out.new ≡ out.old) }
{
    if !has_qp_delta(kind) {
        return Ok(());
    }
    out.put_se(qp_delta)
}
