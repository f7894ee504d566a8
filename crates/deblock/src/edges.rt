// The lines of an edge, in a plane's samples row by row.
ghost use Rattle.std.specs.Prelude.{◌≡◌, ◌+◌, ◌-◌, ◌*◌, ◌<◌, ◌≤◌, length, slice_index};
ghost use Rattle.std.specs.List.{All};
ghost use Rattle.deblock.specs.Deblocked.{after_lines};
ghost use Rattle.deblock.specs.Lines.{after_chroma_line, after_luma_line, line_of};
ghost use Rattle.deblock.specs.Runs.{run_line, same_line};

use crate::filters::{chroma_changed, is_filtered, luma_changed};
use crate::line::{Filter, put_edge, put_line, side_after, side_before};
use crate::thresholds::{Indexes, filter_by, is_passed_over};

// Where the lines of an edge stand: the place of q0 of its first line, how far apart the samples of a line
// stand, and how far apart the lines.
#[derive(Clone, Copy)]
pub(crate) struct Run {
    pub(crate) first: usize,
    pub(crate) step: usize,
    pub(crate) along: usize,
}

// Filters a line of luma.
#[inline(always)]
fn luma_line(samples: &mut [u8], at: usize, step: usize, filter: Filter)
    requires before { 4 * step ≤ at }
    requires after { at + 3 * step < length samples.old }
    requires some { 1 ≤ step }
    requires alpha { filter.alpha ≤ 255 }
    requires tc0 { filter.tc0 ≤ 25 }
    ensures { samples.new ≡ after_luma_line (line_of at step filter) samples.old }
{
    let p = side_before(samples, at, step);
    let q = side_after(samples, at, step);
    if is_filtered(filter, p.s1, p.s0, q.s0, q.s1) {
        put_line(samples, at, step, luma_changed(filter, p, q));
    }
}

// Filters a line of chroma.
#[inline(always)]
fn chroma_line(samples: &mut [u8], at: usize, step: usize, filter: Filter)
    requires before { 2 * step ≤ at }
    requires after { at + step < length samples.old }
    requires some { 1 ≤ step }
    requires tc0 { filter.tc0 ≤ 25 }
    ensures { samples.new ≡ after_chroma_line (line_of at step filter) samples.old }
{
    let p1 = samples[at - 2 * step];
    let p0 = samples[at - step];
    let q0 = samples[at];
    let q1 = samples[at + step];
    if is_filtered(filter, p1, p0, q0, q1) {
        put_edge(samples, at, step, chroma_changed(filter, p1, p0, q0, q1));
    }
}

// Filters four lines of luma, from number `from` of a run on.
#[inline]
fn luma_lines(samples: &mut [u8], run: Run, from: usize, filter: Filter)
    requires from { from ≤ 12 }
    requires before { 4 * run.step ≤ run.first }
    requires after { run.first + (from + 3) * run.along + 3 * run.step < length samples.old }
    requires some { 1 ≤ run.step }
    requires alpha { filter.alpha ≤ 255 }
    requires tc0 { filter.tc0 ≤ 25 }
    ensures { samples.new ≡ after_lines after_luma_line (same_line run filter) from 4 samples.old }
{
    for k in 0..4 {
        luma_line(
            samples,
            run.first + (from + k) * run.along,
            run.step,
            filter,
        );
    }
}

// Filters two lines of chroma, from number `from` of a run on.
#[inline]
fn chroma_lines(samples: &mut [u8], run: Run, from: usize, filter: Filter)
    requires from { from ≤ 6 }
    requires before { 2 * run.step ≤ run.first }
    requires after { run.first + (from + 1) * run.along + run.step < length samples.old }
    requires some { 1 ≤ run.step }
    requires tc0 { filter.tc0 ≤ 25 }
    ensures { samples.new ≡ after_lines after_chroma_line (same_line run filter) from 2 samples.old }
{
    for k in 0..2 {
        chroma_line(
            samples,
            run.first + (from + k) * run.along,
            run.step,
            filter,
        );
    }
}

// Filters the lines of luma at a place of an edge, where there is anything to filter.
#[inline]
fn luma_place(samples: &mut [u8], run: Run, indexes: Indexes, strengths: [u8; 4], place: usize)
    requires before { 4 * run.step ≤ run.first }
    requires after { run.first + 15 * run.along + 3 * run.step < length samples.old }
    requires some { 1 ≤ run.step }
    requires a { indexes.a ≤ 51 }
    requires b { indexes.b ≤ 51 }
    requires strengths { All (λ s. s ≤ 4) strengths }
    requires place { place < 4 }
    ensures { samples.new ≡ after_lines after_luma_line (run_line run indexes strengths 4) (4 * place) 4 samples.old }
{
    let strength = strengths[place];
    if strength > 0 {
        luma_lines(samples, run, 4 * place, filter_by(indexes, strength));
    }
}

// Filters the lines of chroma at a place of an edge, where there is anything to filter.
#[inline]
fn chroma_place(samples: &mut [u8], run: Run, indexes: Indexes, strengths: [u8; 4], place: usize)
    requires before { 2 * run.step ≤ run.first }
    requires after { run.first + 7 * run.along + run.step < length samples.old }
    requires some { 1 ≤ run.step }
    requires a { indexes.a ≤ 51 }
    requires b { indexes.b ≤ 51 }
    requires strengths { All (λ s. s ≤ 4) strengths }
    requires place { place < 4 }
    ensures { samples.new ≡ after_lines after_chroma_line (run_line run indexes strengths 2) (2 * place) 2 samples.old }
{
    let strength = strengths[place];
    if strength > 0 {
        chroma_lines(samples, run, 2 * place, filter_by(indexes, strength));
    }
}

// Filters the sixteen lines of an edge of luma.
#[inline]
pub(crate) fn luma_run(samples: &mut [u8], run: Run, indexes: Indexes, strengths: [u8; 4])
    requires before { 4 * run.step ≤ run.first }
    requires after { run.first + 15 * run.along + 3 * run.step < length samples.old }
    requires some { 1 ≤ run.step }
    requires a { indexes.a ≤ 51 }
    requires b { indexes.b ≤ 51 }
    requires strengths { All (λ s. s ≤ 4) strengths }
    ensures { samples.new ≡ after_lines after_luma_line (run_line run indexes strengths 4) 0 16 samples.old }
{
    if is_passed_over(indexes) {
        return;
    }
    for place in 0..4 {
        luma_place(samples, run, indexes, strengths, place);
    }
}

// Filters the eight lines of an edge of chroma.
#[inline]
pub(crate) fn chroma_run(samples: &mut [u8], run: Run, indexes: Indexes, strengths: [u8; 4])
    requires before { 2 * run.step ≤ run.first }
    requires after { run.first + 7 * run.along + run.step < length samples.old }
    requires some { 1 ≤ run.step }
    requires a { indexes.a ≤ 51 }
    requires b { indexes.b ≤ 51 }
    requires strengths { All (λ s. s ≤ 4) strengths }
    ensures { samples.new ≡ after_lines after_chroma_line (run_line run indexes strengths 2) 0 8 samples.old }
{
    if is_passed_over(indexes) {
        return;
    }
    for place in 0..4 {
        chroma_place(samples, run, indexes, strengths, place);
    }
}
