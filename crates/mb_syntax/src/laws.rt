// What holds of the bits of any slice's macroblocks.
ghost use Rattle.std.specs.Prelude.{◌≡◌, ◌≤◌, ℕ, List, Bool};
ghost use Rattle.cb_types.specs.SizeMbs.{IsWithinLimits};
ghost use Rattle.cb_types.specs.Slices.{active_entries};
ghost use Rattle.cb_types.specs.declared.header.Header.{Header};
ghost use Rattle.cb_types.specs.declared.macroblock.Macroblock.{Macroblock};
ghost use Rattle.cb_types.specs.declared.picture_info.PictureInfo.{PictureInfo};
ghost use Rattle.cb_types.specs.declared.size.SizeMbs.{SizeMbs};
ghost use Rattle.mb_syntax.specs.Slice.{slice_of};
ghost use Rattle.mb_syntax.specs.SliceData.{AreSliceData, IsSliceData, slice_bits};

/// The bits behind a slice header are those of one list of macroblocks at most.
pub fn slice_data_is_unique()
    ensures one { (info : PictureInfo) (header : Header) (size : SizeMbs) (bits : List Bool) (mbs others : List Macroblock) → IsWithinLimits size → active_entries info header ≤ 16 →
        AreSliceData info header size bits mbs → AreSliceData info header size bits others → mbs ≡ others }
{}

/// What is written of a slice's macroblocks, at any place of the payload, is read as the same macroblocks.
pub fn slice_data_reads_back()
    ensures back { (info : PictureInfo) (header : Header) (size : SizeMbs) (place : ℕ) (mbs : List Macroblock) → IsSliceData (slice_of info header size) mbs →
        AreSliceData info header size (slice_bits (slice_of info header size) place mbs) mbs }
{}
