// What is decided of any numbers and lists.
ghost use Rattle.std.specs.Prelude.{◌≡◌, ◌<◌, ◌≤◌, ℕ, ℤ, Bool, true, List, length, All};
ghost use Rattle.finite.specs.Decided.{Decided};

/// Whether two values are equal is decided.
pub fn equations_are_decided()
    ensures numbers { (a b : ℕ) → Decided (a ≡ b) }
    ensures integers { (a b : ℤ) → Decided (a ≡ b) }
    ensures bits { (a b : List Bool) → Decided (a ≡ b) }
{}

/// Whether a number below a bound, or a list of at most so many of them, passes a test is decided.
pub fn searches_end()
    ensures number { (n : ℕ) (test : ℕ → Bool) → Decided ((x : ℕ) × (x < n) × (test x ≡ true)) }
    ensures list { (n most : ℕ) (test : List ℕ → Bool)
        → Decided ((xs : List ℕ) × ((length xs ≤ most) × All (λ x. x < n) xs) × (test xs ≡ true)) }
{}
