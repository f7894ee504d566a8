//! The pictures of a file whose bytes come in pieces, in decoding order, with their samples.

ghost use Rattle.std.specs.Prelude.{◌≡◌, List, OnOk, OnErr, IfOk};
ghost use Rattle.std.specs.Arc.{arc_value};
ghost use Rattle.std.specs.Option.{option_map};

use access_units::{Acceptor, Next, Unsettled};
use cb_types::SizeMbs;
use decoder_render::Outcome;
use marking::Begun;
use picture_buffer::PictureBuffer;
use std::alloc::{AllocError, Global};
use std::sync::Arc;
use submission::Submission;
use vd_plane::Picture;

/// A decoded picture of a file.
#[derive(Drop)]
pub struct DecodedPicture {
    /// The place of the first byte of its access unit's first NAL unit.
    pub offset: u64,
    /// Its picture order count in its period.
    pub poc: i32,
    /// It begins a period of the output order.
    pub period: bool,
    /// How many pictures of its period may wait for their turn to come out.
    pub depth: u32,
    pub samples: Arc<Picture>,
}

/// What a decoder of a file answers.
#[derive(Drop)]
pub enum Step {
    /// More bytes, or the end, are wanted.
    Hungry,
    /// The next picture in decoding order.
    Picture(DecodedPicture),
    /// All pictures of the file were given.
    End,
    /// The access unit at this place isn't accepted; `large` says that the first refused unit of it is a
    /// sequence set of larger pictures than this decoder takes.
    Refused { offset: u64, large: bool },
}

/// Decodes the pictures of a file whose bytes it is fed in pieces.
///
/// It keeps the access unit in hand, and of the pictures those that later ones may refer to. Behind the end, and
/// behind a refusal, it stands for what was fed and given as before, and answers the same whenever it is asked
/// again. After want of memory it isn't used again.
#[derive(Drop)]
pub struct StreamDecoder {
    alloc: Global,
    acceptor: Acceptor,
    // The pictures that later ones may refer to, by their own numbers; None before the first picture.
    buffer: Option<PictureBuffer>,
}

impl StreamDecoder {
    ghost use Rattle.access_units.specs.Pictures as given;
    ghost use Rattle.cb_types.specs.SizeMbs.{IsWithinLimits};
    ghost use Rattle.picture_buffer.specs.Buffers.{size_of};
    ghost use Rattle.accepted_pictures.specs.Files.{Decoded};
    ghost use Rattle.file_pictures.specs.Offers.{AreKeptBehind, AreSamples, IsOffered, Offer};
    ghost use Rattle.accepted_pictures.specs.Streams.{MayFeed, Stream, no_stream, streamed};
    ghost use Rattle.file_pictures.specs.Streams.{HasSmallDepth, HaveSize, IsKept, IsStep, Keeps, StandsFor, StaysIfLast};

    /// Nothing was fed.
    pub fn new(alloc: Global) -> StreamDecoder
        ensures { StandsFor result no_stream }
    {
        StreamDecoder {
            alloc,
            acceptor: Acceptor::new(alloc),
            buffer: None,
        }
    }

    /// Takes the next bytes of the file; an empty slice is its end. Where there is no memory nothing
    /// changes.
    pub fn feed(&mut self, bytes: &[u8]) -> Result<(), AllocError>
        requires { (stream : Stream) × StandsFor self.old stream × MayFeed stream bytes.now }
        ensures fed { OnOk result ((stream : Stream) → StandsFor self.old stream → MayFeed stream bytes.now → StandsFor self.new (streamed stream bytes.now)) }
        ensures untouched { OnErr result ((stream : Stream) → StandsFor self.old stream → StandsFor self.new stream) }
    {
        self.acceptor.feed(bytes)
    }

    /// The next picture, or what stands in its way.
    pub fn next(&mut self) -> Result<Step, AllocError>
        requires { (stream : Stream) × StandsFor self.old stream }
        ensures step { IfOk result (λ step. (stream : Stream) → StandsFor self.old stream → IsStep stream step self.new) }
        ensures stays { IfOk result (λ step. (stream : Stream) → StandsFor self.old stream → StaysIfLast stream step) }
        ensures depth { IfOk result HasSmallDepth }
    {
        match self.acceptor.next()? {
            Next::Hungry => Ok(Step::Hungry),
            Next::Picture(unsettled) => self.decode(unsettled),
            Next::End => Ok(Step::End),
            Next::Refused { offset, large } => Ok(Step::Refused { offset, large }),
        }
    }

    // The picture, decoded, or its access unit's place where its slices come to none.
    fn decode(&mut self, unsettled: Unsettled) -> Result<Step, AllocError>
        requires { (offer : Offer) × IsOffered self.old offer unsettled }
        ensures step { IfOk result (λ step. (offer : Offer) → IsOffered self.old offer unsettled → IsStep offer.stream step self.new) }
        ensures depth { IfOk result HasSmallDepth }
    {
        let offset = unsettled.offset;
        let poc = unsettled.begun.poc;
        let period = unsettled.begun.period;
        let depth = unsettled.depth;
        match self.samples_of(unsettled)? {
            Some(samples) => {
                self.acceptor.settle(true);
                Ok(Step::Picture(DecodedPicture {
                    offset,
                    poc,
                    period,
                    depth,
                    samples,
                }))
            }
            None => {
                self.acceptor.settle(false);
                Ok(Step::Refused {
                    offset,
                    large: false,
                })
            }
        }
    }

    // The samples that a picture's slices come to, None where they come to no whole picture. The buffer has them
    // for those that refer to them.
    fn samples_of(&mut self, unsettled: Unsettled) -> Result<Option<Arc<Picture>>, AllocError>
        requires { (offer : Offer) × IsOffered self.old offer unsettled }
        ensures samples { IfOk result (λ samples. (offer : Offer) → IsOffered self.old offer unsettled → AreSamples offer (option_map arc_value samples)) }
        ensures kept { IfOk result (λ samples. (offer : Offer) → IsOffered self.old offer unsettled → AreKeptBehind self.new.buffer offer (option_map arc_value samples)) }
        ensures acceptor { self.new.acceptor ≡ self.old.acceptor }
    {
        let Unsettled {
            begun,
            size,
            submission,
            ..
        } = unsettled;
        let mut buffer = self.buffer_for(size)?;
        match buffer.decode(self.alloc, begun.frame, &begun.info, submission)? {
            Outcome::Ok => {
                let samples = buffer.samples(self.alloc, begun.frame)?;
                self.buffer = Some(buffer);
                Ok(Some(samples))
            }
            _ => Ok(None),
        }
    }

    // The buffer for pictures of this size: the one that there is, or a new one.
    fn buffer_for(&mut self, size: SizeMbs) -> Result<PictureBuffer, AllocError>
        requires { IsWithinLimits size }
        ensures size { IfOk result (λ buffer. size_of buffer ≡ size) }
        ensures kept { IfOk result (λ buffer. (decoded : List Decoded) (sequence : List given.Picture) → IsKept self.old.buffer decoded sequence → HaveSize size sequence → Keeps buffer decoded sequence) }
        ensures acceptor { self.new.acceptor ≡ self.old.acceptor }
    {
        if let Some(buffer) = self.buffer.take() {
            if buffer.size() == size {
                return Ok(buffer);
            }
        }
        PictureBuffer::new(self.alloc, size)
    }
}
