// The prediction modes of the macroblocks before one.
ghost use Rattle.std.specs.Prelude.{◌≡◌, ◌+◌, ◌<◌, ◌≤◌, ◌++◌, [], ◌∷◌, ℕ, List, length, slice_index_or};
ghost use Rattle.recon.specs.Columns.{AreColumns};

use super::modes::Modes;

/// By column of the picture, the prediction modes of the slice's last macroblock there.
#[derive(Drop)]
pub struct Columns {
    modes: [Modes; 256],
}

impl Columns {
    pub fn new() -> Columns
        ensures { (first width : ℕ) → AreColumns first width [] result }
    {
        Columns {
            modes: [Modes::DC; 256],
        }
    }

    /// The modes of the macroblock at an address, which is one of the last so many before the next one.
    pub fn at(&self, width: u32, address: u32) -> Modes
        requires some { 1 ≤ width }
        requires few { width ≤ 256 }
        ensures { (first : ℕ) (before : List (List ℕ)) (number : ℕ) → AreColumns first width before self.now → address ≡ first + number → number < length before
            → length before ≤ number + width → result.0 ≡ slice_index_or before number [] }
    {
        self.modes[(address % width) as usize]
    }

    /// Keeps the modes of the next macroblock, which is at this address.
    pub fn keep(&mut self, width: u32, address: u32, modes: Modes)
        requires some { 1 ≤ width }
        requires few { width ≤ 256 }
        ensures { (first : ℕ) (before : List (List ℕ)) → AreColumns first width before self.old → address ≡ first + length before → AreColumns first width (before ++ modes.0 ∷ []) self.new }
    {
        self.modes[(address % width) as usize] = modes;
    }
}
