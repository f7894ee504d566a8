// A picture's slice units, and the memory that their decoding needs.
ghost use Rattle.decoder_render.specs.Memory.{IsMemoryFor};
ghost use Rattle.std.specs.Prelude.{length};

use super::decoding::{decode_units, decode_units_at_once};
use super::outcome::Outcome;
use super::parsing::{NO_SLICE, ParsedSlice};
use super::submission::payloads;
use cb_types::{Macroblock, MbMark, PictureInfo, SizeMbs, Vector};
use recon::Refs;
use std::alloc::{AllocError, Global};
use std::thread::Threads;
use vd_outside::Gate;
use vd_plane::{Picture, Tile};

/// The slice units of one picture, with all memory that their decoding takes.
#[derive(Drop)]
pub struct Prepared {
    size: SizeMbs,
    // The payload of each unit, none of a spoiled one.
    units: Vec<Option<Vec<u8>>>,
    // As many as there are units, or macroblocks if these are fewer: each slice has one at least.
    slices: Vec<ParsedSlice>,
    macroblocks: Vec<Macroblock>,
    marks: Vec<MbMark>,
    tiles: Vec<Tile>,
    picture: Picture,
    ghost memory: { IsMemoryFor size (length units.items) (length slices.items) (length macroblocks.items) marks.items tiles.items picture },
}

impl Prepared {
    ghost use Rattle.std.specs.Prelude.{◌≡◌, ◌<◌, ◌^◌, IfOk};
    ghost use Rattle.cb_types.specs.AcceptedInfo.{IsAcceptedBySome};
    ghost use Rattle.cb_types.specs.SizeMbs.{IsWithinLimits};
    ghost use Rattle.recon.specs.References.{pictures_of};
    ghost use Rattle.vd_plane.specs.Picture.{HasSize, IsZeros};
    ghost use Rattle.decoder_render.specs.Coverage.{given};
    ghost use Rattle.decoder_render.specs.Outcomes.{IsOutcome};
    ghost use Rattle.decoder_render.specs.Prepared.{picture_of, size_of, units_of};
    ghost use Rattle.decoder_render.specs.Submission.{ArePayloads};

    /// Splits the bytes of a submission into its slice units (H.264, Annex B), and takes all memory that
    /// decoding them to a picture of this size needs.
    pub fn new(alloc: Global, size: SizeMbs, bytes: &[u8]) -> Result<Prepared, AllocError>
        requires size { IsWithinLimits size }
        requires few { length bytes.now < 2 ^ 32 }
        ensures units { IfOk result (λ prepared. ArePayloads bytes.now (units_of prepared)) }
        ensures size { IfOk result (λ prepared. size_of prepared ≡ size) }
        ensures picture { IfOk result (λ prepared. IsZeros (picture_of prepared) size.width size.height) }
    {
        let units = payloads(alloc, bytes)?;
        let count = size.macroblocks() as usize;
        let slices = count.min(units.len());
        Ok(Prepared {
            size,
            units,
            slices: vec![in alloc; NO_SLICE; slices]?,
            macroblocks: vec![in alloc; Macroblock::SKIP; count]?,
            marks: vec![in alloc; NO_MARK; count]?,
            tiles: vec![in alloc; NO_TILE; count]?,
            picture: Picture::of_size(alloc, size)?,
        })
    }

    /// How many units the submission has, up to a place at which it isn't a byte stream.
    pub fn units(&self) -> u32
        ensures { result ≡ length (units_of self.now) }
    {
        self.units.len() as u32
    }

    /// Decodes the picture. All slices are read first, in their order; then they are constructed one after
    /// the other, and the picture is filtered where each is accepted and they cover it.
    pub fn decode(&mut self, info: &PictureInfo, refs: &Refs) -> Outcome
        requires info { IsAcceptedBySome info.now }
        ensures outcome { IsOutcome (given info.now (size_of self.old) (pictures_of refs.now)) (units_of self.old) result (picture_of self.new) }
        ensures units { units_of self.new ≡ units_of self.old }
        ensures size { size_of self.new ≡ size_of self.old }
    {
        decode_units(
            info,
            refs,
            self.size,
            self.units.as_slice(),
            &mut self.slices,
            &mut self.macroblocks,
            &mut self.marks,
            &mut self.tiles,
            &mut self.picture,
        )
    }

    /// Decodes the picture. All slices are read first, in their order; then their list is halved again and again, and
    /// both halves are constructed beside each other. Slice i passes gate i before it is constructed, where there is
    /// one, with i. Where no thread can be started, this one does the work. It takes no memory and no lock.
    pub fn decode_gated<R: Threads + Sync, G: Gate + Send>(
        &mut self,
        rt: &R,
        info: &PictureInfo,
        refs: &Refs,
        gates: &mut [G],
    ) -> Outcome
        requires info { IsAcceptedBySome info.now }
        ensures outcome { IsOutcome (given info.now (size_of self.old) (pictures_of refs.now)) (units_of self.old) result (picture_of self.new) }
        ensures units { units_of self.new ≡ units_of self.old }
        ensures size { size_of self.new ≡ size_of self.old }
    {
        decode_units_at_once(
            rt,
            info,
            refs,
            self.size,
            self.units.as_slice(),
            &mut self.slices,
            &mut self.macroblocks,
            gates,
            &mut self.marks,
            &mut self.tiles,
            &mut self.picture,
        )
    }

    /// The picture: after the outcome `Ok` the decoded one, before any decoding one whose samples are all 0.
    pub fn picture(self) -> Picture
        ensures picture { result ≡ picture_of self }
        ensures size { HasSize result (size_of self) }
    {
        self.picture
    }
}

const NO_MARK: MbMark = MbMark {
    slice: 0,
    intra: false,
    pcm: false,
    qp: 0,
    idc: 0,
    alpha: 0,
    beta: 0,
    coded: [false; 16],
    pictures: [0; 16],
    vectors: [Vector { x: 0, y: 0 }; 16],
};

const NO_TILE: Tile = Tile {
    y: [0; 256],
    cb: [0; 64],
    cr: [0; 64],
};
