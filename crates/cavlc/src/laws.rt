ghost use Rattle.std.specs.Prelude.{◌≡◌, ℕ, ℤ, ◌+◌, ◌<◌, ◌≤◌, ◌^◌, List, pos, unsigned_abs};
ghost use Rattle.std.specs.List.{slice_index_or};
ghost use Rattle.bit_io.specs.Reads.{IsPrefixFree};
ghost use Rattle.cavlc.specs.Blocks.{HasSpelling, block_bits};
ghost use Rattle.cavlc.specs.Levels.{IsLevelWord, escape, level_word, word_code};

/// The bits of no block begin those of another with the same nC and the same most coefficients, so the block
/// that a read gives is determined.
pub fn blocks_are_prefix_free()
    ensures { (nc : ℤ) (most : ℕ) → IsPrefixFree (HasSpelling nc most) (block_bits nc most) }
{}

/// level_prefix and level_suffix of a code are such as H.264, 9.2.2.1, reads, and give the code back.
pub fn level_words_give_codes_back()
    ensures { (suffix_length code : ℕ) → code < escape suffix_length + 2 ^ 12 →
        let word = level_word suffix_length code in
        IsLevelWord suffix_length word × (word_code word.prefix word.suffix suffix_length ≡ code) }
{}

/// No coefficient of a block that has a spelling is above 2,528 or below -2,528.
pub fn coefficients_are_small()
    ensures { (nc : ℤ) (most : ℕ) (c : List ℤ) → HasSpelling nc most c → (place : ℕ) → unsigned_abs (slice_index_or c place (pos 0)) ≤ 2528 }
{}
