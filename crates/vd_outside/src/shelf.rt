// Where files are read from.
ghost use Rattle.std.specs.Prelude.{◌≡◌, ◌≢◌, ℕ, ◌<◌, ◌≤◌, List, length, None, IfSome, IfOk, IsErr, OnErr, OnOk};
ghost use Rattle.std.specs.declared.option.Option.{Option};
ghost use Rattle.vd_outside.specs.Count.{HasCause, raised};
ghost use Rattle.vd_outside.specs.Shelf.{Files, Fills, IsMissing, told};

/// A read failed. Which fault it was is not told.
#[derive(Clone, Copy, Debug, PartialEq, Eq)]
pub struct Failed;

/// Files by name, read at any place. Reading changes no file.
pub trait Shelf {
    /// What the shelf tells of its files, or `None` where it tells nothing.
    ghost content: { Self → Option Files };

    /// How many faults there were at a name.
    ghost faults: { Self → List ℕ → ℕ };

    /// How often a name was read, as far as the shelf counts that.
    ghost reads: { Self → List ℕ → ℕ } = { λ _ _. 0 };

    /// Reads bytes of the file `name` from the place `at` on into the front of `buf`, as many as it likes.
    /// `Ok(0)` with a buffer that isn't empty is the file's end. A read that failed counts one fault at its name,
    /// and no other read counts any.
    fn read_at(&mut self, name: &str, at: u64, buf: &mut [u8]) -> Result<usize, Failed>
        ensures kept { content self.new ≡ content self.old }
        ensures count { IfOk result (λ n. n ≤ length buf.old) }
        ensures bytes { IfOk result (λ n. IfSome (told (content self.old) name.now) (λ file. Fills file at n buf.old buf.new)) }
        ensures missing { IsMissing (content self.old) name.now → IsErr result }
        ensures cause { HasCause (IsErr result) (faults self.old name.now) (faults self.new name.now) }
        ensures one_fault { IsErr result → faults self.new name.now ≡ raised (faults self.old name.now) }
        ensures no_fault { OnOk result ((other : List ℕ) → faults self.new other ≡ faults self.old other) }
        ensures no_other { (other : List ℕ) → other ≢ name.now → reads self.new other ≡ reads self.old other }
        ensures untouched { OnErr result (buf.new ≡ buf.old) }
        ensures never_lower { (other : List ℕ) → faults self.old other ≤ faults self.new other };
}
