ghost use Rattle.std.specs.Prelude.{◌≡◌, ℕ, ◌≤◌, Bool};
ghost use Rattle.cb_tables.specs.CodedBlockPattern.{pattern_at, pattern_code_at};
ghost use Rattle.cb_tables.specs.Codes.{IsCode, IsFrontOf};
ghost use Rattle.cb_tables.specs.CoeffToken.{IsToken, token_code};
ghost use Rattle.cb_tables.specs.RunBefore.{IsRun, run_code};
ghost use Rattle.cb_tables.specs.TotalZeros.{IsDcZeros, IsTotalZeros, dc_zeros_code, total_zeros_code};

/// Each code has 1 to 16 bits, which spell its value.
pub fn codes_are_spelled()
    ensures coeff_token { (table total ones : ℕ) → IsToken table total ones → IsCode (token_code table total ones) }
    ensures total_zeros { (total zeros : ℕ) → IsTotalZeros total zeros → IsCode (total_zeros_code total zeros) }
    ensures dc_zeros { (total zeros : ℕ) → IsDcZeros total zeros → IsCode (dc_zeros_code total zeros) }
    ensures run_before { (left run : ℕ) → IsRun left run → IsCode (run_code left run) }
{}

/// No code of a list begins another code of that list, so at most one of them begins a stream.
pub fn codes_are_prefix_free()
    ensures coeff_token { (table total ones other_total other_ones : ℕ) → IsToken table total ones → IsToken table other_total other_ones →
        IsFrontOf (token_code table total ones) (token_code table other_total other_ones) → (total ≡ other_total) × (ones ≡ other_ones) }
    ensures total_zeros { (total zeros other : ℕ) → IsTotalZeros total zeros → IsTotalZeros total other →
        IsFrontOf (total_zeros_code total zeros) (total_zeros_code total other) → zeros ≡ other }
    ensures dc_zeros { (total zeros other : ℕ) → IsDcZeros total zeros → IsDcZeros total other →
        IsFrontOf (dc_zeros_code total zeros) (dc_zeros_code total other) → zeros ≡ other }
    ensures run_before { (left run other : ℕ) → IsRun left run → IsRun left other →
        IsFrontOf (run_code left run) (run_code left other) → run ≡ other }
{}

/// Each coded block pattern has one codeNum for a kind of macroblock, and each codeNum one pattern.
pub fn patterns_are_inverse()
    ensures of_code { (code : ℕ) (intra : Bool) → code ≤ 47 → (pattern_at code intra ≤ 47) × (pattern_code_at (pattern_at code intra) intra ≡ code) }
    ensures of_pattern { (pattern : ℕ) (intra : Bool) → pattern ≤ 47 → (pattern_code_at pattern intra ≤ 47) × (pattern_at (pattern_code_at pattern intra) intra ≡ pattern) }
{}
