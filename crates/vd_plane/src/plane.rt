// One array of samples of a picture.
ghost use Rattle.std.specs.Prelude.{◌≡◌, ℕ, ◌+◌, ◌-◌, ◌*◌, ◌<◌, ◌≤◌, ◌==◌, ◌&&◌, ◌+ℤ◌, pos, slice_index, if◌then◌else◌, length, IfOk};
ghost use Rattle.vd_plane.specs.SampleArray.{SampleArray, IsInside, IsPlane, PlanesAreTheirSamples, SameSides, covers, filled, nearest_sample, number_in, rect_at, row, sample};
ghost use Rattle.std.specs.Borrow.{sem};
ghost use Rattle.vd_plane.specs.Lending.{LendsSamples};

use crate::rect::{copy_clamped, nearest, put_rows};
use std::alloc::{AllocError, Global};
use std::marker::Model;

/// A plane of 8-bit samples with sides of 1 to 4,096 (H.264, 6.2). Columns are counted from the
/// left and rows from the top, from 0.
#[derive(Drop)]
pub struct Plane {
    width: u32,
    height: u32,
    samples: Vec<u8>,
}

impl Model for Plane {
    ghost use Rattle.vd_plane.specs.SampleArray.{SampleArray, IsPlane, array_of};

    ghost Value = { SampleArray };

    ghost view = { λ p. array_of p.width p.height p.samples.items };

    ghost invariant = { λ p. IsPlane (array_of p.width p.height p.samples.items) };
}

impl Plane {
    /// A plane whose samples are all `value`.
    pub fn new(alloc: Global, width: u32, height: u32, value: u8) -> Result<Plane, AllocError>
        requires some_column { 1 ≤ width }
        requires columns { width ≤ 4096 }
        requires some_row { 1 ≤ height }
        requires rows { height ≤ 4096 }
        ensures filled { IfOk result (λ plane. plane ≡ filled width height value) }
        ensures samples { IfOk result (λ plane. (x y : ℕ) → IsInside plane x y → sample plane x y ≡ value) }
    {
        let samples = vec![in alloc; value; width as usize * height as usize]?;
        Ok(Plane {
            width,
            height,
            samples,
        })
    }

    /// The number of samples in a row.
    pub fn width(&self) -> u32
        ensures width { result ≡ self.now.width }
        ensures plane { IsPlane self.now }
    {
        self.width
    }

    /// The number of rows.
    pub fn height(&self) -> u32
        ensures height { result ≡ self.now.height }
        ensures plane { IsPlane self.now }
    {
        self.height
    }

    /// The sample in column `x` of row `y`.
    pub fn at(&self, x: u32, y: u32) -> u8
        requires { IsInside self.now x y }
        ensures { result ≡ sample self.now x y }
    {
        self.samples[y as usize * self.width as usize + x as usize]
    }

    /// The sample at the place inside that is nearest to column `x` and row `y`.
    pub fn clamped(&self, x: i64, y: i64) -> u8
        ensures { result ≡ nearest_sample self.now x y }
    {
        let row = self.row(nearest(y, self.height as usize) as u32);
        row[nearest(x, row.len())]
    }

    /// Changes the sample in column `x` of row `y`, and no other.
    pub fn set(&mut self, x: u32, y: u32, value: u8)
        requires { IsInside self.old x y }
        ensures sides { SameSides self.old self.new }
        ensures samples { (x' y' : ℕ) → sample self.new x' y' ≡ (if (x' == x) && (y' == y) then value else sample self.old x' y') }
    {
        let width = self.width as usize;
        self.samples[y as usize * width + x as usize] = value;
    }

    /// The samples of row `y`, from the left.
    pub fn row(&self, y: u32) -> &[u8]
        requires { y < self.now.height }
        ensures row { result.now ≡ row self.now y }
        ensures length { length result.now ≡ self.now.width }
        ensures samples { (x : ℕ) → slice_index result.now x ≡ sample self.now x y }
    {
        let width = self.width as usize;
        let start = y as usize * width;
        &self.samples[start..start + width]
    }

    /// All samples, row by row.
    pub fn samples(&self) -> &[u8]
        ensures samples { result.now ≡ self.now.samples }
        ensures count { length result.now ≡ self.now.width * self.now.height }
    {
        self.samples.as_slice()
    }

    /// All samples, row by row, to be written.
    pub fn samples_mut(&mut self) -> &mut [u8]
        ensures* writes_back { sem 𝓛 (LendsSamples self.entry result) }
        ensures samples { result.now ≡ self.old.samples }
        ensures count { length result.now ≡ self.old.width * self.old.height }
    {
        self.samples.as_mut_slice()
    }

    /// Writes a rectangle of `width` by `height` samples, given row by row, with its first sample in
    /// column `x` of row `y`.
    pub fn put_rect(&mut self, x: u32, y: u32, width: u32, height: u32, from: &[u8])
        requires across { x + width ≤ self.old.width }
        requires down { y + height ≤ self.old.height }
        requires count { length from.now ≡ width * height }
        ensures sides { SameSides self.old self.new }
        ensures samples { let rect = rect_at x y width height in (x' y' : ℕ) → sample self.new x' y' ≡ (if covers rect x' y' then slice_index from.now (number_in rect x' y') else sample self.old x' y') }
    {
        let stride = self.width as usize;
        let samples = self.samples.as_mut_slice();
        put_rows(
            samples,
            stride,
            x as usize,
            y as usize,
            width as usize,
            height as usize,
            from,
        );
    }

    /// Copies a rectangle of `width` by `height` samples, row by row, whose first sample is the one in
    /// column `x` of row `y`. At a place outside it takes the nearest sample inside.
    pub fn clamped_rect(&self, x: i64, y: i64, width: u32, height: u32, into: &mut [u8])
        requires { length into.old ≡ width * height }
        ensures { (x' y' : ℕ) → x' < width → y' < height → slice_index into.new (y' * width + x') ≡ nearest_sample self.now (x +ℤ pos x') (y +ℤ pos y') }
    {
        let columns = width as usize;
        let rows = self.height as usize;
        for row in 0..height {
            let source = self.row(nearest(y.saturating_add(i64::from(row)), rows) as u32);
            let start = row as usize * columns;
            copy_clamped(source, x, &mut into[start..start + columns]);
        }
    }
}

/// A plane is its sides and its samples by place: nothing else tells two planes apart.
pub fn planes_are_their_samples()
    ensures { PlanesAreTheirSamples }
{}
