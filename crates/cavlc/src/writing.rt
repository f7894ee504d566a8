// Writing a block. H.264, 7.3.5.3.1.
ghost use Rattle.std.specs.Prelude.{◌≡◌, ◌≤◌, ◌+◌, ◌-◌, ◌++◌, OnErr, OnOk, drop, length, min, reverse, sum, take};
ghost use Rattle.cavlc.specs.Blocks.{HasRunCode, HasSpelling, block_bits, left_behind, run_bits};
ghost use Rattle.cavlc.specs.Coefficients.{gaps, leading_ones, levels, total_coeff};
ghost use Rattle.cavlc.specs.Parts.{IsLonger};
ghost use Rattle.cavlc.specs.Turns.{AreInTurn, in_turn};

use crate::elements::{put_run, put_token, put_zeros};
use crate::levels::put_levels;
use bit_io::BitWriter;
use std::alloc::AllocError;

// The levels of a block and the zeros right before each, from `first` on in the order in which they are
// spelled, and all zeros before the last level.
#[derive(Clone, Copy)]
struct Parts {
    levels: [i32; 16],
    runs: [u32; 16],
    first: usize,
    zeros: u32,
}

/// Writes a block that [`read_block`](crate::read_block) reads with the same `nc` and `most`. An `Err`
/// leaves what was written as it was.
pub fn write_block(
    out: &mut BitWriter,
    nc: i32,
    most: u32,
    block: &[i32; 16],
) -> Result<(), AllocError>
    requires { HasSpelling nc most block.now }
    ensures ok { OnOk result (out.new ≡ out.old ++ block_bits nc most block.now) }
    ensures err { OnErr result (out.new ≡ out.old) }
{
    let mark = out.mark();
    let written = put_block(out, nc, most, block);
    if written.is_err() {
        out.back_to(mark);
    }
    written
}

fn put_block(out: &mut BitWriter, nc: i32, most: u32, block: &[i32; 16]) -> Result<(), AllocError>
    requires { HasSpelling nc most block.now }
    ensures ok { OnOk result (out.new ≡ out.old ++ block_bits nc most block.now) }
    ensures err { OnErr result (IsLonger out.old out.new) }
{
    let parts = parts_of(block);
    let total = (16 - parts.first) as u32;
    let levels = &parts.levels[parts.first..];
    let ones = ones_of(levels);
    put_token(out, nc, total, ones)?;
    put_levels(out, ones, levels)?;
    put_zeros(out, most, total, parts.zeros)?;
    let runs = &parts.runs[parts.first..];
    if total > 1 {
        put_runs(out, parts.zeros, &runs[..runs.len() - 1])?;
    }
    Ok(())
}

fn parts_of(block: &[i32; 16]) -> Parts
    ensures first { result.first + total_coeff block.now ≡ 16 }
    ensures levels { drop result.first result.levels ≡ levels block.now }
    ensures runs { drop result.first result.runs ≡ reverse (gaps 0 block.now) }
    ensures zeros { result.zeros ≡ sum (gaps 0 block.now) }
{
    let mut levels = [0; 16];
    let mut runs = [0; 16];
    let mut first = 16;
    let mut zeros = 0;
    let mut run = 0;
    for i in 0..16 {
        let level = block[i];
        if level == 0 {
            run += 1;
            continue;
        }
        first -= 1;
        levels[first] = level;
        runs[first] = run;
        zeros += run;
        run = 0;
    }
    Parts {
        levels,
        runs,
        first,
        zeros,
    }
}

// TrailingOnes.
fn ones_of(levels: &[i32]) -> u32
    ensures { result ≡ min 3 (leading_ones levels.now) }
{
    let mut ones = 0;
    for level in levels {
        if ones == 3 || level.unsigned_abs() != 1 {
            return ones;
        }
        ones += 1;
    }
    ones
}

fn put_runs(out: &mut BitWriter, zeros: u32, runs: &[u32]) -> Result<(), AllocError>
    requires { AreInTurn HasRunCode left_behind zeros runs.now }
    ensures ok { OnOk result (out.new ≡ out.old ++ in_turn run_bits left_behind zeros runs.now) }
    ensures err { OnErr result (IsLonger out.old out.new) }
{
    let mut left = zeros;
    for run in runs {
        put_run(out, left, *run)?;
        left -= *run;
    }
    Ok(())
}
