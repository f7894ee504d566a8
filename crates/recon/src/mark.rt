// What macroblocks tell the deblocking filter.
ghost use Rattle.std.specs.Prelude.{◌≡◌, ℕ, ◌<◌, ◌≤◌, ◌*ℤ◌, false, length, pos, slice_index, slice_index_or, unwrap_or, unsigned_abs};
ghost use Rattle.cb_types.specs.declared.macroblock.MbKind.{MbKind};
ghost use Rattle.motion.specs.Kinds.{is_intra};
ghost use Rattle.motion.specs.Partitions.{partition_of};
ghost use Rattle.recon.specs.Conditions.{IsKindRange};
ghost use Rattle.recon.specs.Laws.{IsWholeMark};
ghost use Rattle.recon.specs.Marks.{IsMarkOf, has_levels, is_pcm, place_in};
ghost use Rattle.recon.specs.Residuals.{levels_at};

use super::residual::has_levels;
use cb_types::{Header, Macroblock, MbKind, MbMark, Vector};
use motion::{is_intra, partition_of};
use ref_lists::RefList;

/// The mark of a macroblock with this QP and these vectors.
pub fn mark_of(
    header: &Header,
    list: &RefList,
    macroblock: &Macroblock,
    qp: u32,
    vectors: [Vector; 16],
) -> MbMark
    requires alpha { unsigned_abs header.now.alpha_half ≤ 6 }
    requires beta { unsigned_abs header.now.beta_half ≤ 6 }
    requires kind { IsKindRange macroblock.now.kind }
    ensures mark { IsMarkOf header.now list.now.entries macroblock.now qp result }
    ensures vectors { result.vectors ≡ vectors }
    ensures whole { IsWholeMark result }
{
    MbMark {
        slice: header.first_mb,
        intra: is_intra(&macroblock.kind),
        pcm: is_pcm(&macroblock.kind),
        qp,
        idc: header.deblock_idc,
        alpha: 2 * header.alpha_half,
        beta: 2 * header.beta_half,
        coded: coded(macroblock),
        pictures: pictures(list, &macroblock.kind),
        vectors,
    }
}

fn is_pcm(kind: &MbKind) -> bool
    ensures { result ≡ is_pcm kind.now }
{
    matches!(kind, MbKind::Pcm(_))
}

fn coded(macroblock: &Macroblock) -> [bool; 16]
    ensures count { length result ≡ 16 }
    ensures coded { (block : ℕ) → block < 16 → slice_index_or result block false ≡ has_levels (levels_at macroblock.now.luma block) }
{
    let mut coded = [false; 16];
    for block in 0..16 {
        coded[block] = has_levels(&macroblock.luma[block]);
    }
    coded
}

fn pictures(list: &RefList, kind: &MbKind) -> [u8; 16]
    requires { IsKindRange kind.now }
    ensures count { length result ≡ 16 }
    ensures places { (block : ℕ) → block < 16 → slice_index result block ≡ place_in list.now.entries kind.now block }
{
    let mut pictures = [0; 16];
    if is_intra(kind) {
        return pictures;
    }
    for block in 0..16 {
        let reference = partition_of(kind, block as u32).reference;
        pictures[block] = list.entries[reference as usize].unwrap_or(0);
    }
    pictures
}
