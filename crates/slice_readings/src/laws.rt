// What is decided of a payload.
ghost use Rattle.std.specs.Prelude.{ℕ, ℤ, Bool, List, Option};
ghost use Rattle.cb_types.specs.declared.header.Header.{Header};
ghost use Rattle.cb_types.specs.declared.header.UnitHead.{UnitHead};
ghost use Rattle.cb_types.specs.declared.picture_info.PictureInfo.{PictureInfo};
ghost use Rattle.cb_types.specs.declared.size.SizeMbs.{SizeMbs};
ghost use Rattle.finite.specs.Decided.{Decided};
ghost use Rattle.slice_readings.specs.Readings.{AreSomeSliceData, BeginsWithBlock, BeginsWithHeader, ParsesAsSome, SpellsSome};

/// Whether some block begins bits, and some slice header, and whether bits are some slice's macroblocks, is decided.
pub fn parts_are_decided()
    ensures block { (nc : ℤ) (most : ℕ) (bits : List Bool) → Decided (BeginsWithBlock nc most bits) }
    ensures header { (head : UnitHead) (info : PictureInfo) (bits : List Bool)
        → Decided (BeginsWithHeader head info bits) }
    ensures slice_data { (info : PictureInfo) (header : Header) (size : SizeMbs) (bits : List Bool)
        → Decided (AreSomeSliceData info header size bits) }
{}

/// Whether a payload spells a slice, and whether it spells one that its picture can have, is decided.
pub fn readings_are_decided()
    ensures spelled { (info : PictureInfo) (size : SizeMbs) (payload : List ℕ)
        → Decided (SpellsSome info size payload) }
    ensures parsed { (info : PictureInfo) (size : SizeMbs) (first : Option Header) (covered : ℕ) (payload : List ℕ)
        → Decided (ParsesAsSome info size first covered payload) }
{}
