// Reading a block. H.264, 7.3.5.3.1.
ghost use Rattle.std.specs.Prelude.{◌≡◌, ◌≢◌, ◌≤◌, ◌+◌, All, IfSome, OnSome, option_map, pos, take};
ghost use Rattle.bit_io.specs.Reads.{Reads};
ghost use Rattle.cavlc.specs.Blocks.{HasSpelling, block_bits, left_behind, run_bits};
ghost use Rattle.cavlc.specs.Coefficients.{runs, total_coeff};
ghost use Rattle.cavlc.specs.Parts.{AreRuns, Gives, IsPlaced};
ghost use Rattle.cavlc.specs.Turns.{in_turn};

use crate::elements::{read_run, read_token, read_zeros};
use crate::levels::read_levels;
use bit_io::BitReader;

/// Reads a block of `most` coefficients, which it gives in scan order: 16, or 15 and a last 0, or 4 and
/// twelve 0. `nc` is nC of H.264, 9.2.1, which is -1 for the DC coefficients of a chroma block, the blocks
/// with `most` 4. None where no block's bits begin what is left; nothing is consumed then.
pub fn read_block(reader: &mut BitReader, nc: i32, most: u32) -> Option<[i32; 16]>
    requires { most ≤ 16 }
    ensures { Reads (HasSpelling nc most) (block_bits nc most) reader.old result reader.new }
{
    let mut block = [0; 16];
    read_block_into(reader, nc, most, &mut block)?;
    Some(block)
}

/// Reads a block as [`read_block`] does, whatever `into` was, and gives its TotalCoeff. After a None `into`
/// is unspecified.
pub fn read_block_into(
    reader: &mut BitReader,
    nc: i32,
    most: u32,
    into: &mut [i32; 16],
) -> Option<u32>
    requires { most ≤ 16 }
    ensures reads { Reads (HasSpelling nc most) (block_bits nc most) reader.old (option_map (λ total. into.new) result) reader.new }
    ensures total { IfSome result (λ total. total ≡ total_coeff into.new) }
    ensures within { IfSome result (λ total. total ≤ most) }
{
    let mut ahead = reader.fork();
    let token = read_token(&mut ahead, nc)?;
    if token.total > most {
        return None;
    }
    let levels = read_levels(&mut ahead, token.total, token.ones)?;
    let zeros = read_zeros(&mut ahead, token.total, most)?;
    read_places(&mut ahead, &levels, token.total, zeros, into)?;
    *reader = ahead;
    Some(token.total)
}

// Reads the run before each level but the last of these, and puts the levels at their places.
#[inline]
fn read_places(
    reader: &mut BitReader,
    levels: &[i32; 16],
    total: u32,
    zeros: u32,
    into: &mut [i32; 16],
) -> Option<()>
    requires within { total + zeros ≤ 16 }
    requires none { total ≡ 0 → zeros ≡ 0 }
    requires nonzero { All (λ level. level ≢ pos 0) (take total levels.now) }
    ensures reads { Gives (AreRuns total zeros) (in_turn run_bits left_behind zeros) reader.old (option_map (λ done. runs into.new) result) reader.new }
    ensures placed { OnSome result (IsPlaced (take total levels.now) zeros into.new) }
{
    *into = [0; 16];
    if total == 0 {
        return Some(());
    }
    let last = total - 1;
    let mut left = zeros;
    for i in 0..last {
        into[(left + last - i) as usize] = levels[i as usize];
        left -= read_run(reader, left)?;
    }
    into[left as usize] = levels[last as usize];
    Some(())
}
