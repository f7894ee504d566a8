ghost use Rattle.std.specs.Prelude.{ℕ};
ghost use Rattle.bit_io.specs.Bits.{u};
ghost use Rattle.bit_io.specs.Codewords.{IsSe, IsTe, IsU, IsUe, se, te, ue};
ghost use Rattle.bit_io.specs.Reads.{IsPrefixFree};

/// No codeword of a kind begins another of it, so the value that a read gives is determined.
pub fn codewords_are_prefix_free()
    ensures u { (n : ℕ) → IsPrefixFree (IsU n) (λ v. u v n) }
    ensures ue { IsPrefixFree IsUe ue }
    ensures se { IsPrefixFree IsSe se }
    ensures te { (greatest : ℕ) → IsPrefixFree (IsTe greatest) (λ v. te v greatest) }
{}
