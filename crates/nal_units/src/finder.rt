//! Finds the NAL units of a byte stream that comes byte by byte, or in pieces (H.264, Annex B).

ghost use Rattle.std.specs.Prelude.{◌≡◌, ◌≢◌, ◌↔◌, ℕ, ◌+◌, ◌<◌, ◌≤◌, ◌^◌, List, [], ◌∷◌, ◌++◌, length, take, Option, Some, None};
ghost use Rattle.nal_units.specs.Units.{Units, HasUnit};
ghost use Rattle.nal_units.specs.Settled.{Settles, IsBrokenAt, unit_in, broken_in};
ghost use Rattle.nal_units.specs.Finder.{IsOutside, IsInside, IsPhase, Advances, StandsFor, HasRoom};

/// What a byte, or the end of the text, settles. Places are counted from 0 over all that was pushed.
#[derive(Clone, Copy, Debug, PartialEq, Eq)]
pub enum Found {
    /// Neither a unit ends here nor is the text broken.
    Nothing,
    /// The unit from place `start` up to, and without, place `end`.
    Unit { start: u64, end: u64 },
    /// The text is no byte stream: the byte at this place fits nowhere.
    Broken { at: u64 },
}

/// Where in a byte stream the text pushed so far ends.
#[derive(Clone, Copy, Debug)]
enum Phase {
    /// Behind this many zero bytes, where 2 stands for any more too, and in no unit.
    Outside { zeros: u8 },
    /// In the unit that begins at `start`, behind this many zero bytes that may not be its own.
    Inside { start: u64, zeros: u8 },
    /// Behind a byte that fits nowhere.
    Broken { at: u64 },
}

/// Finds the NAL units of a byte stream, of which it keeps no byte.
///
/// Each push turns what the text so far settles into what the longer text settles, by its answer alone, and `finish`
/// turns that into the units and the broken place of the whole text. So all the answers, in order, are just these.
#[derive(Clone, Copy, Debug)]
pub struct Finder {
    position: u64,
    phase: Phase,
}

impl Finder {
    /// A finder at the beginning of a text.
    pub fn new() -> Finder
        ensures stands { StandsFor result [] }
        ensures settles { Settles [] [] None }
    {
        Finder {
            position: 0,
            phase: Phase::Outside { zeros: 0 },
        }
    }

    /// Takes the next byte of the text.
    pub fn push(&mut self, byte: u8) -> Found
        requires { HasRoom self.old 1 }
        ensures stands { (text : List ℕ) → StandsFor self.old text → StandsFor self.new (text ++ byte ∷ []) }

        // A unit is found at the third byte of the `00 00 00` or `00 00 01` behind it.
        ensures unit { (text : List ℕ) → StandsFor self.old text → (start end : ℕ) →
            (result ≡ Found.Unit start end) ↔ (HasUnit (text ++ byte ∷ []) start end × (end + 3 ≡ length (text ++ byte ∷ []))) }

        // The text is broken from the byte on behind which it can't be whole any more.
        ensures broken { (text : List ℕ) → StandsFor self.old text → (at : ℕ) →
            (result ≡ Found.Broken at) ↔ IsBrokenAt (text ++ byte ∷ []) at }

        // So what was found adds up to what the text settles.
        ensures settles { (text : List ℕ) (settled : List (ℕ × ℕ)) (broken : Option ℕ) → StandsFor self.old text → Settles text settled broken →
            Settles (text ++ byte ∷ []) (settled ++ unit_in result) (broken_in result) }
    {
        let (phase, found) = next(self.phase, self.position, byte);
        self.phase = phase;
        self.position += 1;
        found
    }

    /// Takes the next bytes of the text, up to the first that finds something, or all: how many, and what was found.
    pub fn push_slice(&mut self, bytes: &[u8]) -> (usize, Found)
        requires { HasRoom self.old (length bytes.now) }
        ensures taken { result.0 ≤ length bytes.now }
        ensures some { 0 < length bytes.now → 0 < result.0 }
        ensures all { result.1 ≡ Found.Nothing → result.0 ≡ length bytes.now }
        ensures empty { length bytes.now ≡ 0 → result.1 ≡ Found.Nothing }
        ensures stands { (text : List ℕ) → StandsFor self.old text → StandsFor self.new (text ++ take result.0 bytes.now) }
        ensures settles { (text : List ℕ) (settled : List (ℕ × ℕ)) → StandsFor self.old text → Settles text settled None →
            Settles (text ++ take result.0 bytes.now) (settled ++ unit_in result.1) (broken_in result.1) }

        // No byte before the last one that was taken finds anything.
        ensures first { (text : List ℕ) (settled : List (ℕ × ℕ)) → StandsFor self.old text → Settles text settled None → (k : ℕ) → k < result.0 →
            Settles (text ++ take k bytes.now) settled None }
        ensures broken { (text : List ℕ) (settled : List (ℕ × ℕ)) (at : ℕ) → StandsFor self.old text → Settles text settled (Some at) → 0 < length bytes.now →
            (result.0 ≡ 1) × (result.1 ≡ Found.Broken at) }
    {
        let mut taken = 0;
        while taken < bytes.len() {
            taken += self.skip(&bytes[taken..]);
            match self.push(bytes[taken]) {
                Found::Nothing => taken += 1,
                found => return (taken + 1, found),
            }
        }
        (taken, Found::Nothing)
    }

    /// Takes some of these bytes, not all, that surely find nothing: how many.
    fn skip(&mut self, bytes: &[u8]) -> usize
        requires room { HasRoom self.old (length bytes.now) }
        requires some { 0 < length bytes.now }
        ensures below { result < length bytes.now }
        ensures stands { (text : List ℕ) → StandsFor self.old text → StandsFor self.new (text ++ take result bytes.now) }
        ensures quiet { (text : List ℕ) (settled : List (ℕ × ℕ)) → StandsFor self.old text → Settles text settled None → (k : ℕ) → k ≤ result →
            Settles (text ++ take k bytes.now) settled None }
        ensures broken { (text : List ℕ) (settled : List (ℕ × ℕ)) (at : ℕ) → StandsFor self.old text → Settles text settled (Some at) → result ≡ 0 }
    {
        match self.phase {
            Phase::Inside { zeros, .. } if zeros == 0 => {
                let skipped = plain_len(bytes);
                self.position += skipped as u64;
                skipped
            }
            _ => 0,
        }
    }

    /// Ends the text. After a broken place it answers that place again.
    pub fn finish(&mut self) -> Found
        requires { HasRoom self.old 0 }
        ensures { (text : List ℕ) (settled : List (ℕ × ℕ)) (broken : Option ℕ) → StandsFor self.old text → Settles text settled broken →
            Units text (settled ++ unit_in result) (broken_in result) }
    {
        match self.phase {
            Phase::Outside { .. } => Found::Nothing,
            Phase::Inside { start, zeros } => last(start, self.position - u64::from(zeros)),
            Phase::Broken { at } => Found::Broken { at },
        }
    }
}

/// How many bytes at the front of these, three by three and not all, end in one above 1. In a unit, and behind no zero
/// byte of it, none of them finds anything, and the unit goes on.
fn plain_len(bytes: &[u8]) -> usize
    requires { 0 < length bytes.now }
    ensures below { result < length bytes.now }
    ensures stands { (text : List ℕ) (settled : List (ℕ × ℕ)) (start : ℕ) → IsInside text settled start 0 → IsInside (text ++ take result bytes.now) settled start 0 }
    ensures quiet { (text : List ℕ) (settled : List (ℕ × ℕ)) (start : ℕ) → IsInside text settled start 0 → (k : ℕ) → k ≤ result →
        Settles (text ++ take k bytes.now) settled None }
{
    let mut plain = 0;
    while bytes.len() - plain > 3 && bytes[plain + 2] > 1 {
        plain += 3;
    }
    plain
}

/// The phase behind a byte, and what it finds.
fn next(phase: Phase, position: u64, byte: u8) -> (Phase, Found)
    requires room { position < 2 ^ 63 }
    requires known { (text : List ℕ) × (settled : List (ℕ × ℕ)) × IsPhase phase text settled × (position ≡ length text) }
    ensures { (text : List ℕ) (settled : List (ℕ × ℕ)) → IsPhase phase text settled → position ≡ length text → Advances text settled byte result.0 result.1 }
{
    match phase {
        Phase::Outside { zeros } => outside(zeros, position, byte),
        Phase::Inside { start, zeros } => inside(start, zeros, position, byte),
        Phase::Broken { at } => (Phase::Broken { at }, Found::Broken { at }),
    }
}

fn outside(zeros: u8, position: u64, byte: u8) -> (Phase, Found)
    requires { position < 2 ^ 63 }
    ensures { (text : List ℕ) (settled : List (ℕ × ℕ)) → IsOutside text settled zeros → position ≡ length text → Advances text settled byte result.0 result.1 }
{
    if byte == 0 {
        let zeros = if zeros < 2 { zeros + 1 } else { 2 };
        (Phase::Outside { zeros }, Found::Nothing)
    } else if byte == 1 && zeros == 2 {
        (
            Phase::Inside {
                start: position + 1,
                zeros: 0,
            },
            Found::Nothing,
        )
    } else {
        (
            Phase::Broken { at: position },
            Found::Broken { at: position },
        )
    }
}

fn inside(start: u64, zeros: u8, position: u64, byte: u8) -> (Phase, Found)
    requires room { position < 2 ^ 63 }
    requires pending { zeros ≤ position }
    ensures { (text : List ℕ) (settled : List (ℕ × ℕ)) → IsInside text settled start zeros → position ≡ length text → Advances text settled byte result.0 result.1 }
{
    if byte == 0 && zeros < 2 {
        (
            Phase::Inside {
                start,
                zeros: zeros + 1,
            },
            Found::Nothing,
        )
    } else if byte > 1 || zeros < 2 {
        (Phase::Inside { start, zeros: 0 }, Found::Nothing)
    } else {
        ended(start, position - 2, byte)
    }
}

/// Behind the third byte of `00 00 00` or `00 00 01`, which begins at `end`.
fn ended(start: u64, end: u64, byte: u8) -> (Phase, Found)
    requires room { end + 3 ≤ 2 ^ 63 }
    requires third { byte ≤ 1 }
    ensures { (text : List ℕ) (settled : List (ℕ × ℕ)) → IsInside text settled start 2 → end + 2 ≡ length text → Advances text settled byte result.0 result.1 }
{
    if start == end {
        (Phase::Broken { at: start }, Found::Broken { at: start })
    } else if byte == 0 {
        (Phase::Outside { zeros: 2 }, Found::Unit { start, end })
    } else {
        (
            Phase::Inside {
                start: end + 3,
                zeros: 0,
            },
            Found::Unit { start, end },
        )
    }
}

/// What the end of the text finds in a unit.
fn last(start: u64, end: u64) -> Found
    ensures empty { start ≡ end → result ≡ Found.Broken start }
    ensures some { start ≢ end → result ≡ Found.Unit start end }
{
    if start == end {
        Found::Broken { at: start }
    } else {
        Found::Unit { start, end }
    }
}
