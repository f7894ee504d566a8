// The picture that lines spell.
use crate::line::{Line, argument};
use crate::pictures::{Asked, picture_of, worked_info};
use crate::told::Text;
use decoder_render::Outcome;
use driver_model::SurfaceSize;
use hex::FromHexError;
use std::alloc::{AllocError, Global};
use std::mem;
use submission::{MAX_SUBMISSION, Submission, SubmissionFault};
use vd_status::Refusal;

/// The slice units of the picture that is decoded next, how many they are, and what they come to: the outcome, and the
/// samples of luma and chroma.
#[derive(Drop)]
pub struct Worked {
    submission: Submission,
    units: u32,
    outcome: Outcome,
    samples: [u8; 2],
}

impl Worked {
    pub fn new(alloc: Global) -> Worked {
        Worked {
            submission: Submission::new(alloc),
            units: 0,
            outcome: Outcome::Ok,
            samples: [0; 2],
        }
    }

    /// Takes what the line tells of the picture, if it is such a line.
    pub fn take(&mut self, alloc: Global, line: Line<'_>) -> Option<Text> {
        let [first, second, third, fourth, fifth] = line.numbers;
        match line.name {
            "slices" => Some(self.push_hex(alloc, line.rest)),
            "zeros" => Some(self.push_zeros(alloc, first)),
            "comes" => {
                self.units = argument(first);
                self.outcome = outcome_of(second, argument(third));
                self.samples = [fourth.min(255) as u8, fifth.min(255) as u8];
                None
            }
            _ => None,
        }
    }

    fn push_hex(&mut self, alloc: Global, text: &str) -> Text {
        match hex::decode(alloc, text) {
            Ok(bytes) => self.push(alloc, &bytes),
            Err(FromHexError::OutOfMemory) => Err(AllocError),
            Err(_) => format!(in alloc; "no bytes"),
        }
    }

    fn push_zeros(&mut self, alloc: Global, count: u64) -> Text {
        let bytes = vec![in alloc; 0; count.min(MAX_SUBMISSION as u64) as usize]?;
        self.push(alloc, &bytes)
    }

    fn push(&mut self, alloc: Global, bytes: &[u8]) -> Text {
        match self.submission.push(bytes) {
            Ok(()) => {
                let count = self.submission.bytes().len();
                format!(in alloc; "{count} bytes")
            }
            Err(SubmissionFault::TooLong { total }) => {
                format!(in alloc; "{total} bytes are too many")
            }
            Err(SubmissionFault::OutOfMemory) => Err(AllocError),
        }
    }

    /// The picture for a surface of this size, with this kind of information and so many slices. Its units are gone
    /// then.
    pub fn asked(
        &mut self,
        alloc: Global,
        size: Result<SurfaceSize, Refusal>,
        kind: u32,
        slices: u32,
    ) -> Result<Asked, AllocError> {
        let (width, height) = match size {
            Ok(size) => (size.width, size.height),
            Err(_) => (16, 16),
        };
        let columns = (width / 16).clamp(1, 256);
        let rows = (height / 16).clamp(1, 256);
        let picture = picture_of(alloc, columns, rows, self.samples)?;
        Ok(Asked {
            info: worked_info(kind, slices),
            has_reference: kind == 1 || kind == 2,
            submission: mem::replace(&mut self.submission, Submission::new(alloc)),
            units: self.units,
            outcome: self.outcome,
            picture,
        })
    }
}

// The outcome with this number: 0 for a picture, 1 for a unit that isn't accepted, and each other for macroblocks that
// aren't covered.
fn outcome_of(number: u64, count: u32) -> Outcome {
    match number {
        0 => Outcome::Ok,
        1 => Outcome::Bitstream { slice: count },
        _ => Outcome::Incomplete { macroblocks: count },
    }
}
