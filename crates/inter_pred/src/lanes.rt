// Eight samples at once.
ghost use Rattle.std.specs.Prelude.{◌≡◌, ℕ, ◌+◌, ◌-◌, ◌*◌, ◌<◌, ◌≤◌, min, length, slice_index};
ghost use Rattle.inter_pred.specs.Luma.{mean};
ghost use Rattle.inter_pred.specs.Rows.{centre_in, eighth_in, half_in, raised_in};

use crate::eighths::Eighths;
use std::simd::prelude::*;

// Eight samples, each in 16 bits.
#[inline(always)]
fn load(samples: &[u8], at: usize) -> u16x8
    requires { at + 8 ≤ length samples.now }
    ensures count { length result ≡ 8 }
    ensures lanes { (k : ℕ) → k < 8 → slice_index result k ≡ slice_index samples.now (at + k) }
{
    u8x8::from_slice(&samples[at..]).cast::<u16>()
}

// Eight sums.
#[inline(always)]
fn load_sums(sums: &[u16], at: usize) -> u16x8
    requires { at + 8 ≤ length sums.now }
    ensures count { length result ≡ 8 }
    ensures lanes { (k : ℕ) → k < 8 → slice_index result k ≡ slice_index sums.now (at + k) }
{
    u16x8::from_slice(&sums[at..])
}

// Takes what each lane was raised by away again, and clips it to a sample.
#[inline(always)]
fn clipped(lanes: u16x8, raised: u16) -> u8x8
    ensures count { length result ≡ 8 }
    ensures lanes { (k : ℕ) → k < 8 → slice_index result k ≡ min (slice_index lanes k - raised) 255 }
{
    lanes
        .saturating_sub(u16x8::splat(raised))
        .simd_min(u16x8::splat(255))
        .cast::<u8>()
}

// Raised sums of six samples that stand `step` apart, from each of eight places on.
#[inline(always)]
pub(crate) fn raised_lanes(samples: &[u8], step: usize, at: usize) -> u16x8
    requires { at + 5 * step + 8 ≤ length samples.now }
    ensures count { length result ≡ 8 }
    ensures lanes { (k : ℕ) → k < 8 → slice_index result k ≡ raised_in samples.now step (at + k) }
{
    let outer = load(samples, at) + load(samples, at + 5 * step);
    let next = load(samples, at + step) + load(samples, at + 4 * step);
    let inner = load(samples, at + 2 * step) + load(samples, at + 3 * step);
    outer + inner * u16x8::splat(20) + u16x8::splat(2560) - next * u16x8::splat(5)
}

// Half samples from six that stand `step` apart, from each of eight places on.
#[inline(always)]
pub(crate) fn half_lanes(samples: &[u8], step: usize, at: usize) -> u8x8
    requires { at + 5 * step + 8 ≤ length samples.now }
    ensures count { length result ≡ 8 }
    ensures lanes { (k : ℕ) → k < 8 → slice_index result k ≡ half_in samples.now step (at + k) }
{
    clipped(
        (raised_lanes(samples, step, at) + u16x8::splat(16)) >> 5,
        80,
    )
}

// The samples in the centre from six raised sums that stand `step` apart, from each of eight places on.
// A sum over 1,024 is had in steps, each within 16 bits: what leaves them is above every sample.
#[inline(always)]
pub(crate) fn centre_lanes(sums: &[u16], step: usize, at: usize) -> u8x8
    requires room { at + 5 * step + 8 ≤ length sums.now }
    requires bound { (k : ℕ) → slice_index sums.now k ≤ 13270 }
    ensures count { length result ≡ 8 }
    ensures lanes { (k : ℕ) → k < 8 → slice_index result k ≡ centre_in sums.now step (at + k) }
{
    let outer = load_sums(sums, at) + load_sums(sums, at + 5 * step);
    let next = load_sums(sums, at + step) + load_sums(sums, at + 4 * step);
    let inner = load_sums(sums, at + 2 * step) + load_sums(sums, at + 3 * step);
    let quarter = (outer + u16x8::splat(26_540) - next) >> 2;
    let sixteenth = (quarter + inner).saturating_add(u16x8::splat(26_773) - next) >> 2;
    clipped((sixteenth + inner) >> 6, 210)
}

// The means of samples of two slices, at each of eight places.
#[inline(always)]
pub(crate) fn mean_lanes(first: &[u8], second: &[u8], at: usize) -> u8x8
    requires first { at + 8 ≤ length first.now }
    requires second { at + 8 ≤ length second.now }
    ensures count { length result ≡ 8 }
    ensures lanes { (k : ℕ) → k < 8 → slice_index result k ≡ mean (slice_index first.now (at + k)) (slice_index second.now (at + k)) }
{
    ((load(first, at) + load(second, at) + u16x8::splat(1)) >> 1).cast::<u8>()
}

// Samples between four of the row above and the row below, from each of eight places on.
#[inline(always)]
pub(crate) fn eighth_lanes(eighths: Eighths, above: &[u8], below: &[u8], at: usize) -> u8x8
    requires above { at + 9 ≤ length above.now }
    requires below { at + 9 ≤ length below.now }
    ensures count { length result ≡ 8 }
    ensures lanes { (k : ℕ) → k < 8 → slice_index result k ≡ eighth_in eighths.right eighths.below above.now below.now (at + k) }
{
    let left = u16x8::splat(8 - eighths.right);
    let right = u16x8::splat(eighths.right);
    let upper = load(above, at) * left + load(above, at + 1) * right;
    let lower = load(below, at) * left + load(below, at + 1) * right;
    let sum = upper * u16x8::splat(8 - eighths.below) + lower * u16x8::splat(eighths.below);
    ((sum + u16x8::splat(32)) >> 6).cast::<u8>()
}
