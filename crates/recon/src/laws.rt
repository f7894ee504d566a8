// What follows from the equations of a slice's marks and samples.
ghost use Rattle.std.specs.Prelude.{◌≡◌, ℕ, ◌<◌, ◌≤◌, List};
ghost use Rattle.cb_types.specs.declared.mark.MbMark.{MbMark};
ghost use Rattle.motion.specs.Border.{mark_at};
ghost use Rattle.vd_plane.specs.Tiles.{tile_at};
ghost use Rattle.vd_plane.specs.declared.tile.Tile.{Tile};
ghost use Rattle.recon.specs.Laws.{AreWhole};
ghost use Rattle.recon.specs.Rebuilt.{AreRebuilt, StopsWithin};
ghost use Rattle.recon.specs.Slice.{Slice};

/// The equations of a slice have one solution: marks and tiles that meet those of its first macroblocks are
/// these macroblocks' only ones.
pub fn slices_have_one_solution()
    ensures marks { (slice : Slice) (count : ℕ) (marks other_marks : List MbMark) (tiles other_tiles : List Tile) → 1 ≤ slice.size.width
        → AreWhole marks tiles count → AreWhole other_marks other_tiles count → AreRebuilt slice marks tiles count → AreRebuilt slice other_marks other_tiles count
        → (number : ℕ) → number < count → mark_at marks number ≡ mark_at other_marks number }
    ensures tiles { (slice : Slice) (count : ℕ) (marks other_marks : List MbMark) (tiles other_tiles : List Tile) → 1 ≤ slice.size.width
        → AreWhole marks tiles count → AreWhole other_marks other_tiles count → AreRebuilt slice marks tiles count → AreRebuilt slice other_marks other_tiles count
        → (number : ℕ) → number < count → tile_at tiles number ≡ tile_at other_tiles number }
{}

/// Where one of a slice's macroblocks can't be constructed behind those before it, no marks and tiles meet
/// the equations of all of them.
pub fn stopped_slices_have_no_solution()
    ensures none { (slice : Slice) (count : ℕ) (marks other_marks : List MbMark) (tiles other_tiles : List Tile) → 1 ≤ slice.size.width
        → AreWhole marks tiles count → AreWhole other_marks other_tiles count → StopsWithin slice marks tiles count → AreRebuilt slice other_marks other_tiles count → ⊥ }
{}
