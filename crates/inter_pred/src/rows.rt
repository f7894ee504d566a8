// Rows of samples made from others.
ghost use Rattle.std.specs.Prelude.{◌≡◌, ℕ, ◌+◌, ◌*◌, ◌/◌, ◌<◌, ◌≤◌, length, slice_index};
ghost use Rattle.inter_pred.specs.Luma.{half, mean};
ghost use Rattle.inter_pred.specs.Rows.{centre, centre_in, half_in, raised, raised_in};

use crate::lanes::{centre_lanes, half_lanes, mean_lanes, raised_lanes};
use std::simd::prelude::*;

// Copies samples, by one vector where there are as many as in a side of a block.
#[inline]
pub(crate) fn copy_row(samples: &[u8], out: &mut [u8])
    requires { length out.old ≤ length samples.now }
    ensures { (k : ℕ) → k < length out.new → slice_index out.new k ≡ slice_index samples.now k }
{
    match out.len() {
        16 => u8x16::from_slice(samples).copy_to_slice(out),
        8 => u8x8::from_slice(samples).copy_to_slice(out),
        4 => u8x4::from_slice(samples).copy_to_slice(out),
        count => out.copy_from_slice(&samples[..count]),
    }
}

// The sum of six taps, raised by 2,560, so that it is never negative.
#[inline(always)]
fn raised(e: u8, f: u8, g: u8, h: u8, i: u8, j: u8) -> u16
    ensures { result ≡ raised e f g h i j }
{
    let outer = u16::from(e) + u16::from(j);
    let next = u16::from(f) + u16::from(i);
    let inner = u16::from(g) + u16::from(h);
    outer + 20 * inner + 2560 - 5 * next
}

// The half sample between the third and the fourth of six.
#[inline(always)]
fn half(e: u8, f: u8, g: u8, h: u8, i: u8, j: u8) -> u8
    ensures { result ≡ half e f g h i j }
{
    ((raised(e, f, g, h, i, j) + 16) / 32)
        .saturating_sub(80)
        .min(255) as u8
}

// The sample in the centre from six raised sums.
#[inline(always)]
fn centre(e: u16, f: u16, g: u16, h: u16, i: u16, j: u16) -> u8
    ensures { result ≡ centre e f g h i j }
{
    let outer = u32::from(e) + u32::from(j);
    let next = u32::from(f) + u32::from(i);
    let inner = u32::from(g) + u32::from(h);
    ((outer + 20 * inner + 655_872 - 5 * next) / 1024)
        .saturating_sub(720)
        .min(255) as u8
}

// A half sample for each place: from six samples that stand `step` apart, from the place on.
#[inline]
pub(crate) fn half_row(samples: &[u8], step: usize, out: &mut [u8])
    requires { 5 * step + length out.old ≤ length samples.now }
    ensures { (k : ℕ) → k < length out.new → slice_index out.new k ≡ half_in samples.now step k }
{
    let blocks = out.len() / 8;
    for block in 0..blocks {
        half_lanes(samples, step, 8 * block).copy_to_slice(&mut out[8 * block..]);
    }
    half_rest(samples, step, 8 * blocks, out);
}

// The half samples of a row of which the first ones stand already.
fn half_rest(samples: &[u8], step: usize, first: usize, out: &mut [u8])
    requires count { 5 * step + length out.old ≤ length samples.now }
    requires first { (k : ℕ) → k < first → slice_index out.old k ≡ half_in samples.now step k }
    ensures { (k : ℕ) → k < length out.new → slice_index out.new k ≡ half_in samples.now step k }
{
    for k in first..out.len() {
        out[k] = half(
            samples[k],
            samples[k + step],
            samples[k + 2 * step],
            samples[k + 3 * step],
            samples[k + 4 * step],
            samples[k + 5 * step],
        );
    }
}

// A raised sum for each place: of six samples from the place on.
#[inline]
pub(crate) fn sum_row(samples: &[u8], sums: &mut [u16])
    requires { 5 + length sums.old ≤ length samples.now }
    ensures { (k : ℕ) → k < length sums.new → slice_index sums.new k ≡ raised_in samples.now 1 k }
{
    let blocks = sums.len() / 8;
    for block in 0..blocks {
        raised_lanes(samples, 1, 8 * block).copy_to_slice(&mut sums[8 * block..]);
    }
    sum_rest(samples, 8 * blocks, sums);
}

// The raised sums of a row of which the first ones stand already.
fn sum_rest(samples: &[u8], first: usize, sums: &mut [u16])
    requires count { 5 + length sums.old ≤ length samples.now }
    requires first { (k : ℕ) → k < first → slice_index sums.old k ≡ raised_in samples.now 1 k }
    ensures { (k : ℕ) → k < length sums.new → slice_index sums.new k ≡ raised_in samples.now 1 k }
{
    for k in first..sums.len() {
        sums[k] = raised(
            samples[k],
            samples[k + 1],
            samples[k + 2],
            samples[k + 3],
            samples[k + 4],
            samples[k + 5],
        );
    }
}

// A sample for each place: from six raised sums that stand `step` apart, from the place on.
#[inline]
pub(crate) fn centre_row(sums: &[u16], step: usize, out: &mut [u8])
    requires count { 5 * step + length out.old ≤ length sums.now }
    requires bound { (k : ℕ) → slice_index sums.now k ≤ 13270 }
    ensures { (k : ℕ) → k < length out.new → slice_index out.new k ≡ centre_in sums.now step k }
{
    let blocks = out.len() / 8;
    for block in 0..blocks {
        centre_lanes(sums, step, 8 * block).copy_to_slice(&mut out[8 * block..]);
    }
    centre_rest(sums, step, 8 * blocks, out);
}

// The samples in the centre of a row of which the first ones stand already.
fn centre_rest(sums: &[u16], step: usize, first: usize, out: &mut [u8])
    requires count { 5 * step + length out.old ≤ length sums.now }
    requires first { (k : ℕ) → k < first → slice_index out.old k ≡ centre_in sums.now step k }
    ensures { (k : ℕ) → k < length out.new → slice_index out.new k ≡ centre_in sums.now step k }
{
    for k in first..out.len() {
        out[k] = centre(
            sums[k],
            sums[k + step],
            sums[k + 2 * step],
            sums[k + 3 * step],
            sums[k + 4 * step],
            sums[k + 5 * step],
        );
    }
}

// The mean of two samples, rounded up.
#[inline(always)]
fn mean(u: u8, v: u8) -> u8
    ensures { result ≡ mean u v }
{
    ((u16::from(u) + u16::from(v) + 1) / 2) as u8
}

// Takes the mean of each sample and its fellow.
#[inline]
pub(crate) fn mean_row(samples: &[u8], out: &mut [u8])
    requires { length out.old ≤ length samples.now }
    ensures { (k : ℕ) → k < length out.new → slice_index out.new k ≡ mean (slice_index out.old k) (slice_index samples.now k) }
{
    let blocks = out.len() / 8;
    for block in 0..blocks {
        mean_lanes(out, samples, 8 * block).copy_to_slice(&mut out[8 * block..]);
    }
    mean_rest(samples, 8 * blocks, out);
}

// The means from a place on.
fn mean_rest(samples: &[u8], first: usize, out: &mut [u8])
    requires { length out.old ≤ length samples.now }
    ensures before { (k : ℕ) → k < first → slice_index out.new k ≡ slice_index out.old k }
    ensures means { (k : ℕ) → first ≤ k → k < length out.new → slice_index out.new k ≡ mean (slice_index out.old k) (slice_index samples.now k) }
{
    for k in first..out.len() {
        out[k] = mean(out[k], samples[k]);
    }
}
