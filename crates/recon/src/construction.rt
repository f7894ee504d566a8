// A slice's macroblocks, one after the other.
ghost use Rattle.std.specs.Prelude.{◌≡◌, ℕ, ◌+◌, ◌^◌, ◌<◌, ◌≤◌, Bool, List, MatchBool, length, option_map};
ghost use Rattle.std.specs.Option.{ForSome};
ghost use Rattle.motion.specs.Around.{AreBefore, around_of};
ghost use Rattle.motion.specs.Border.{macroblock_at, mark_at};
ghost use Rattle.vd_plane.specs.Tiles.{tile_at};
ghost use Rattle.recon.specs.Availability.{usable_around};
ghost use Rattle.recon.specs.Columns.{AreColumns};
ghost use Rattle.recon.specs.Conditions.{IsKindRange, IsSlice};
ghost use Rattle.recon.specs.Laws.{AreWhole};
ghost use Rattle.recon.specs.Modes.{modes_in, next_modes, slice_modes};
ghost use Rattle.recon.specs.Rebuilt.{AreRebuilt, StopsWithin};
ghost use Rattle.recon.specs.References.{pictures_of};
ghost use Rattle.recon.specs.Slice.{slice_of};

use super::availability::usable_around;
use super::columns::Columns;
use super::inputs::Inputs;
use super::mark::mark_of;
use super::modes::{Modes, modes_of};
use super::quantizer::{first_qp, next_qp};
use super::references::Refs;
use super::tiles::tile_of;
use cb_types::{Header, Macroblock, MbMark, PictureInfo, SizeMbs};
use motion::{Around, around_of, border_of, vectors_of};
use ref_lists::RefList;
use vd_plane::Tile;

/// Constructs the samples of a slice, before deblocking, and the marks of its macroblocks (H.264, 8.3 to
/// 8.5). The three slices begin at the slice's first macroblock, and `count` of them are its own.
///
/// `list` is the slice's reference list. False exactly where a macroblock uses a missing entry of it, an
/// absent frame or a frame whose picture isn't given, an intra mode whose samples are missing, or a vector
/// outside the bounds: -8192 to 8191 across and -2048 to 2047 down, in quarter samples. Then the marks and
/// tiles of the macroblocks before the first such one are constructed.
pub fn rebuild(
    info: &PictureInfo,
    header: &Header,
    list: &RefList,
    refs: &Refs,
    size: SizeMbs,
    macroblocks: &[Macroblock],
    count: u32,
    marks: &mut [MbMark],
    into: &mut [Tile],
) -> bool
    requires slice { IsSlice (slice_of info.now header.now list.now.entries (pictures_of refs.now) size macroblocks.now) count }
    requires macroblocks { count ≤ length macroblocks.now }
    requires marks { count ≤ length marks.old }
    requires tiles { count ≤ length into.old }
    ensures rebuilt { let slice = slice_of info.now header.now list.now.entries (pictures_of refs.now) size macroblocks.now in
        MatchBool result (AreRebuilt slice marks.new into.new count) (StopsWithin slice marks.new into.new count) }
    ensures whole { AreWhole marks.old into.old count → AreWhole marks.new into.new count }
    ensures other_marks { (number : ℕ) → count ≤ number → mark_at marks.new number ≡ mark_at marks.old number }
    ensures other_tiles { (number : ℕ) → count ≤ number → tile_at into.new number ≡ tile_at into.old number }
{
    let inputs = Inputs {
        info,
        header,
        list,
        refs,
        size,
        macroblocks,
    };
    let mut columns = Columns::new();
    let mut qp = first_qp(info, header);
    for number in 0..count {
        let macroblock = &macroblocks[number as usize];
        qp = next_qp(qp, macroblock.qp_delta);
        let around = around_of(size, header.first_mb, number);
        let usable = usable_around(info.constrained_intra_pred_flag, macroblocks, &around);
        let modes = next_modes(
            &mut columns,
            macroblocks,
            &usable,
            header.first_mb,
            number,
            size.width,
        );
        let border = border_of(macroblocks, marks, &around);
        let Some(vectors) = vectors_of(&border, &macroblock.kind) else {
            return false;
        };
        let Some(tile) = tile_of(&inputs, number, qp, &modes, &usable, &vectors, into) else {
            return false;
        };
        marks[number as usize] = mark_of(header, list, macroblock, qp, vectors);
        into[number as usize] = tile;
    }
    true
}

// The prediction modes of the next macroblock, which are kept for those behind it.
fn next_modes(
    columns: &mut Columns,
    macroblocks: &[Macroblock],
    usable: &Around,
    first: u32,
    number: u32,
    width: u32,
) -> Modes
    requires some { 1 ≤ width }
    requires few { width ≤ 256 }
    requires fits { first + number < 2 ^ 32 }
    requires macroblock { number < length macroblocks.now }
    requires range { IsKindRange (macroblock_at macroblocks.now number).kind }
    requires before { AreBefore number usable.now }
    ensures { (constrained : Bool) → usable.now ≡ usable_around constrained macroblocks.now (around_of first width number)
        → AreColumns first width (slice_modes constrained first width macroblocks.now number) columns.old
        → (result.0 ≡ next_modes constrained first width macroblocks.now (slice_modes constrained first width macroblocks.now number) number)
        × AreColumns first width (slice_modes constrained first width macroblocks.now (number + 1)) columns.new }
{
    let left = modes_beside(columns, first, width, usable.left);
    let above = modes_beside(columns, first, width, usable.above);
    let modes = modes_of(&macroblocks[number as usize].kind, left, above);
    columns.keep(width, first + number, modes);
    modes
}

// The prediction modes of a neighbour.
fn modes_beside(columns: &Columns, first: u32, width: u32, number: Option<u32>) -> Option<Modes>
    requires some { 1 ≤ width }
    requires few { width ≤ 256 }
    requires fits { ForSome number (λ k. first + k < 2 ^ 32) }
    ensures { (before : List (List ℕ)) → AreColumns first width before columns.now → ForSome number (λ k. k < length before) → ForSome number (λ k. length before ≤ k + width)
        → option_map (λ modes. modes.0) result ≡ modes_in before number }
{
    match number {
        Some(k) => Some(columns.at(width, first + k)),
        None => None,
    }
}
