// Inter predicted samples. H.264, 8.4.2.
ghost use Rattle.std.specs.Prelude.{◌≡◌, ℕ, ◌+◌, ◌*◌, ◌/◌, ◌^◌, ◌<◌, ◌≤◌, ◌+ℤ◌, ◌≤ℤ◌, if◌then◌else◌, false, All, MatchOption, length, negsuc, pos, slice_index, unsigned_abs};
ghost use Rattle.inter_pred.specs.Chroma.{chroma_at};
ghost use Rattle.inter_pred.specs.Luma.{luma_at};
ghost use Rattle.std.specs.Option.{ForSome};
ghost use Rattle.motion.specs.Border.{vector_at};
ghost use Rattle.motion.specs.Kinds.{is_intra};
ghost use Rattle.motion.specs.Partitions.{IsPlaced};
ghost use Rattle.motion.specs.Vectors.{AreShared, IsWithinBounds};
ghost use Rattle.vd_plane.specs.SampleArray.{covers, rect_at};
ghost use Rattle.vd_plane.specs.Tiles.{sample_in_rows, tile_cb, tile_cr, tile_y};
ghost use Rattle.recon.specs.Conditions.{AreWeights, IsEntry, IsSlice, IsWeight};
ghost use Rattle.recon.specs.Inputs.{slice_in};
ghost use Rattle.recon.specs.Inter.{chroma_shown, chroma_weight, entry_weights, inter_cb, inter_cr, inter_luma, luma_shown, under};
ghost use Rattle.recon.specs.Rebuilt.{HasPictures, LacksPicture};
ghost use Rattle.recon.specs.Slice.{kind_at};

use super::inputs::Inputs;
use super::rect::put_rect;
use super::references::picture_of;
use cb_types::{EntryWeights, Header, PictureInfo, Vector, Weight};
use inter_pred::{chroma, luma, weigh};
use motion::{Partition, partition_of};
use vd_plane::{Plane, Tile};

/// Where a macroblock stands in its picture, counted in macroblocks.
#[derive(Clone, Copy)]
pub struct Place {
    pub column: u32,
    pub row: u32,
}

/// The predicted samples of an inter macroblock with these vectors, None where an entry of the reference
/// list that it uses is missing, an absent frame or one whose picture isn't given.
pub fn inter(inputs: &Inputs, number: u32, vectors: &[Vector; 16]) -> Option<Tile>
    requires slice { IsSlice (slice_in inputs.now) (number + 1) }
    requires macroblock { number < length inputs.now.macroblocks.now }
    requires inter { is_intra (kind_at (slice_in inputs.now) number) ≡ false }
    requires vectors { (block : ℕ) → block < 16 → IsWithinBounds (vector_at vectors.now block) }
    requires shared { AreShared (kind_at (slice_in inputs.now) number) vectors.now }
    ensures { MatchOption result (LacksPicture (slice_in inputs.now) (kind_at (slice_in inputs.now) number)) (λ tile.
        HasPictures (slice_in inputs.now) (kind_at (slice_in inputs.now) number)
        × ((x y : ℕ) → x < 16 → y < 16 → tile_y tile x y ≡ inter_luma (slice_in inputs.now) number vectors.now x y)
        × ((x y : ℕ) → x < 8 → y < 8 → tile_cb tile x y ≡ inter_cb (slice_in inputs.now) number vectors.now x y)
        × ((x y : ℕ) → x < 8 → y < 8 → tile_cr tile x y ≡ inter_cr (slice_in inputs.now) number vectors.now x y)) }
{
    let kind = &inputs.macroblocks[number as usize].kind;
    let address = inputs.header.first_mb + number;
    let place = Place {
        column: address % inputs.size.width,
        row: address / inputs.size.width,
    };
    let mut tile = Tile {
        y: [0; 256],
        cb: [0; 64],
        cr: [0; 64],
    };
    for block in 0..16 {
        let partition = partition_of(kind, block);
        if partition.first_block() == block {
            let picture = picture_of(inputs.info, inputs.list, inputs.refs, partition.reference)?;
            let vector = vectors[block as usize];
            let weights = entry_weights(inputs.info, inputs.header, partition.reference);
            let denom = inputs.header.weights.luma_denom;
            predict_luma(
                &picture.y,
                &partition,
                vector,
                place,
                denom,
                weights.luma,
                &mut tile.y,
            );
            let denom = inputs.header.weights.chroma_denom;
            let cb = chroma_weight(&weights.chroma, 0);
            predict_chroma(
                &picture.cb,
                &partition,
                vector,
                place,
                denom,
                cb,
                &mut tile.cb,
            );
            let cr = chroma_weight(&weights.chroma, 1);
            predict_chroma(
                &picture.cr,
                &partition,
                vector,
                place,
                denom,
                cr,
                &mut tile.cr,
            );
        }
    }
    Some(tile)
}

// The weights that are used for an entry of the list.
fn entry_weights(info: &PictureInfo, header: &Header, entry: u32) -> EntryWeights
    requires entry { entry < 16 }
    requires weights { AreWeights header.now.weights }
    ensures weights { result ≡ entry_weights info.now header.now entry }
    ensures range { IsEntry result }
{
    if info.weighted_pred_flag {
        header.weights.entries[entry as usize]
    } else {
        EntryWeights {
            luma: None,
            chroma: None,
        }
    }
}

// The weight of Cb (plane 0) or Cr (plane 1).
fn chroma_weight(weights: &Option<[Weight; 2]>, plane: usize) -> Option<Weight>
    requires plane { plane < 2 }
    requires weights { ForSome weights.now (All IsWeight) }
    ensures weight { result ≡ chroma_weight weights.now plane }
    ensures range { ForSome result IsWeight }
{
    match weights {
        Some(weights) => Some(weights[plane]),
        None => None,
    }
}

// Predicts the luma of a partition.
fn predict_luma(
    plane: &Plane,
    partition: &Partition,
    vector: Vector,
    place: Place,
    denom: u32,
    weight: Option<Weight>,
    into: &mut [u8; 256],
)
    requires partition { IsPlaced partition.now }
    requires vector { IsWithinBounds vector }
    requires column { place.column < 256 }
    requires row { place.row < 256 }
    requires denom { denom ≤ 7 }
    requires weight { ForSome weight IsWeight }
    ensures { (x y : ℕ) → x < 16 → y < 16 → sample_in_rows 16 into.new x y ≡ (if covers (rect_at partition.now.column partition.now.row partition.now.width partition.now.height) (x / 4) (y / 4)
        then under denom weight (luma_shown plane.now vector place.column place.row x y)
        else sample_in_rows 16 into.old x y) }
{
    let (width, height) = (4 * partition.width, 4 * partition.height);
    let x = start(place.column, partition.column, vector.x);
    let y = start(place.row, partition.row, vector.y);
    let mut buffer = [0; 256];
    let count = (width * height) as usize;
    fill_luma(
        plane,
        x,
        y,
        width,
        height,
        denom,
        weight,
        &mut buffer[..count],
    );
    put_rect(
        into,
        16,
        4 * partition.column as usize,
        4 * partition.row as usize,
        width as usize,
        height as usize,
        &buffer[..count],
    );
}

// Where the samples of a partition begin, in quarters of a luma sample or eighths of a chroma sample: of
// the macroblock in a column, the blocks from one on, moved by a vector.
fn start(macroblock: u32, block: u32, vector: i32) -> i64
    requires macroblock { macroblock < 256 }
    requires block { block < 4 }
    requires least { negsuc 8191 ≤ℤ vector }
    requires most { vector ≤ℤ pos 8191 }
    ensures start { result ≡ pos (64 * macroblock + 16 * block) +ℤ vector }
    ensures limit { unsigned_abs result ≤ 2 ^ 20 }
{
    i64::from(64 * macroblock + 16 * block) + i64::from(vector)
}

// Predicts a rectangle of luma samples under a weight.
fn fill_luma(
    plane: &Plane,
    x: i64,
    y: i64,
    width: u32,
    height: u32,
    denom: u32,
    weight: Option<Weight>,
    out: &mut [u8],
)
    requires column { unsigned_abs x ≤ 2 ^ 20 }
    requires row { unsigned_abs y ≤ 2 ^ 20 }
    requires some_column { 1 ≤ width }
    requires columns { width ≤ 16 }
    requires some_row { 1 ≤ height }
    requires rows { height ≤ 16 }
    requires count { length out.old ≡ width * height }
    requires denom { denom ≤ 7 }
    requires weight { ForSome weight IsWeight }
    ensures count { length out.new ≡ width * height }
    ensures samples { (i j : ℕ) → i < width → j < height → slice_index out.new (j * width + i) ≡ under denom weight (luma_at plane.now (x +ℤ pos (4 * i)) (y +ℤ pos (4 * j))) }
{
    luma(plane, x, y, width, height, out);
    weigh_under(out, denom, weight);
}

// Weighs samples, where there is a weight.
fn weigh_under(samples: &mut [u8], denom: u32, weight: Option<Weight>)
    requires denom { denom ≤ 7 }
    requires weight { ForSome weight IsWeight }
    ensures { (k : ℕ) → k < length samples.new → slice_index samples.new k ≡ under denom weight (slice_index samples.old k) }
{
    if let Some(Weight { weight, offset }) = weight {
        weigh(samples, denom, weight, offset);
    }
}

// Predicts Cb or Cr of a partition.
fn predict_chroma(
    plane: &Plane,
    partition: &Partition,
    vector: Vector,
    place: Place,
    denom: u32,
    weight: Option<Weight>,
    into: &mut [u8; 64],
)
    requires partition { IsPlaced partition.now }
    requires vector { IsWithinBounds vector }
    requires column { place.column < 256 }
    requires row { place.row < 256 }
    requires denom { denom ≤ 7 }
    requires weight { ForSome weight IsWeight }
    ensures { (x y : ℕ) → x < 8 → y < 8 → sample_in_rows 8 into.new x y ≡ (if covers (rect_at partition.now.column partition.now.row partition.now.width partition.now.height) (x / 2) (y / 2)
        then under denom weight (chroma_shown plane.now vector place.column place.row x y)
        else sample_in_rows 8 into.old x y) }
{
    let (width, height) = (2 * partition.width, 2 * partition.height);
    let x = start(place.column, partition.column, vector.x);
    let y = start(place.row, partition.row, vector.y);
    let mut buffer = [0; 64];
    let count = (width * height) as usize;
    fill_chroma(
        plane,
        x,
        y,
        width,
        height,
        denom,
        weight,
        &mut buffer[..count],
    );
    put_rect(
        into,
        8,
        2 * partition.column as usize,
        2 * partition.row as usize,
        width as usize,
        height as usize,
        &buffer[..count],
    );
}

// Predicts a rectangle of chroma samples under a weight.
fn fill_chroma(
    plane: &Plane,
    x: i64,
    y: i64,
    width: u32,
    height: u32,
    denom: u32,
    weight: Option<Weight>,
    out: &mut [u8],
)
    requires column { unsigned_abs x ≤ 2 ^ 20 }
    requires row { unsigned_abs y ≤ 2 ^ 20 }
    requires some_column { 1 ≤ width }
    requires columns { width ≤ 16 }
    requires some_row { 1 ≤ height }
    requires rows { height ≤ 16 }
    requires count { length out.old ≡ width * height }
    requires denom { denom ≤ 7 }
    requires weight { ForSome weight IsWeight }
    ensures count { length out.new ≡ width * height }
    ensures samples { (i j : ℕ) → i < width → j < height → slice_index out.new (j * width + i) ≡ under denom weight (chroma_at plane.now (x +ℤ pos (8 * i)) (y +ℤ pos (8 * j))) }
{
    chroma(plane, x, y, width, height, out);
    weigh_under(out, denom, weight);
}
