// The bytes of a picture's slice units.
ghost use Rattle.std.specs.Prelude.{◌≤◌, length};

use std::alloc::{AllocError, Global};
use std::marker::Model;

/// The greatest number of bytes that are handed in for one picture: 64 MiB.
pub const MAX_SUBMISSION: usize = 67_108_864;

/// Why bytes weren't added.
#[derive(Clone, Copy, Debug, PartialEq, Eq)]
pub enum SubmissionFault {
    /// With them there would be so many bytes, which are more than 64 MiB.
    TooLong { total: u64 },
    /// There was no memory for them.
    OutOfMemory,
}

impl From<AllocError> for SubmissionFault {
    ghost use Rattle.std.specs.Prelude.{◌≡◌};
    ghost use Rattle.submission.specs.declared.submission.SubmissionFault.TheVariants.{OutOfMemory};

    ghost from_gives = { λ _ fault. fault ≡ OutOfMemory };

    fn from(_: AllocError) -> Self {
        SubmissionFault::OutOfMemory
    }
}

/// The bytes of a picture's slice units, a byte stream (H.264, Annex B) that may come in pieces: each unit
/// stands behind `00 00 01`. It keeps its allocator. A contract sees the bytes, one piece behind the other.
#[derive(Drop)]
pub struct Submission {
    joined: Vec<u8>,
}

impl Model for Submission {
    ghost use Rattle.std.specs.Prelude.{◌≤◌, ℕ, List, length};

    ghost Value = { List ℕ };

    ghost view = { λ s. s.joined.items };

    ghost invariant = { λ s. length s.joined.items ≤ 67108864 };
}

impl Submission {
    ghost use Rattle.std.specs.Prelude.{◌≡◌, ◌+◌, ◌<◌, ◌++◌, ℕ, [], length, OnOk, OnErr, IsErrOf};

    /// No bytes.
    pub fn new(alloc: Global) -> Submission
        ensures { result ≡ [] }
    {
        Submission {
            joined: Vec::new(alloc),
        }
    }

    /// Adds bytes behind those that are there; where that fails, nothing changes.
    pub fn push(&mut self, bytes: &[u8]) -> Result<(), SubmissionFault>
        ensures added { OnOk result (self.new ≡ self.old ++ bytes.now) }
        ensures untouched { OnErr result (self.new ≡ self.old) }
        ensures too_long { (total : ℕ) → IsErrOf result (SubmissionFault.TooLong total) →
            (total ≡ length self.old + length bytes.now) × (67108864 < total) }
        ensures fits { OnOk result (length self.old + length bytes.now ≤ 67108864) }
    {
        let total = self.joined.len() as u64 + bytes.len() as u64;
        if total > MAX_SUBMISSION as u64 {
            return Err(SubmissionFault::TooLong { total });
        }
        self.joined.extend_from_slice(bytes)?;
        Ok(())
    }

    /// All bytes.
    pub fn bytes(&self) -> &[u8]
        ensures { result.now ≡ self.now }
    {
        self.joined.as_slice()
    }
}
