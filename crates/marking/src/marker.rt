// Which frames are marked, from picture to picture.
ghost use Rattle.std.specs.Prelude.{◌≡◌, ◌≤◌, ◌<◌, ◌^◌, ◌∷◌, ◌++◌, [], ℕ, List, IfOk, IfSome, Ok};
ghost use Rattle.cb_types.specs.AcceptedInfo.{IsAccepted};
ghost use Rattle.param_sets.specs.Accepted.{IsAcceptedPps, IsAcceptedSps};
ghost use Rattle.marking.specs.Operations.{HasRoom};
ghost use Rattle.marking.specs.Begun.{begun_by, references_of};
ghost use Rattle.marking.specs.Frames.{after_frame_num};

use super::after::{last_frame_num_after, orders_after};
use super::begun::{Begun, MarkFault};
use super::counts::{Counts, Orders, least_count, order_counts};
use super::frames::{Frames, MAX_FRAMES};
use super::info::info_of;
use super::marks::{Marks, Own};
use super::numbers::Numbers;
use super::operations::marks_after;
use super::sliding::filled;
use cb_types::{Header, Reference};
use param_sets::{Pps, Sps};

/// Which frames are marked as used for reference behind the pictures so far, and what the next picture's
/// frame_num and picture order counts depend on.
///
/// `begin` says what a picture is, and changes nothing; `finish` marks the picture.
#[derive(Drop)]
pub struct Marker {
    frames: Frames,
    // Long-term frame indices below this are allowed.
    indices: u32,
    // The frame_num of the last reference picture (PrevRefFrameNum).
    last_frame_num: u32,
    orders: Orders,
}

/// What is settled of a picture: the frames marked before it, its own number, its counts and the marks
/// behind it.
#[derive(Drop)]
pub struct Settled {
    pub frames: Frames,
    pub number: u32,
    pub counts: Counts,
    pub marks: Marks,
}

fn begun_by(sps: &Sps, pps: &Pps, header: &Header, settled: Settled) -> Begun
    requires sps { IsAcceptedSps sps.now }
    requires pps { IsAcceptedPps pps.now }
    requires frame_num { header.now.frame_num < 2 ^ 16 }
    ensures { result ≡ begun_by sps.now pps.now header.now settled }
{
    let is_reset = settled.marks.is_reset;
    let counts = settled.counts;
    Begun {
        info: info_of(
            sps,
            pps,
            header,
            counts,
            references_of(header, &settled.frames),
        ),
        poc: if is_reset { 0 } else { least_count(counts) },
        period: header.is_idr() || is_reset,
        header: *header,
        frame: settled.number,
    }
}

fn references_of(header: &Header, frames: &Frames) -> [Reference; MAX_FRAMES]
    ensures { result ≡ references_of header.now frames.now }
{
    if header.is_idr() {
        Frames::new().entries()
    } else {
        frames.entries()
    }
}

impl Marker {
    ghost use Rattle.marking.specs.Begun.{begun_of, frames_before, is_gap_fault, marker_after, max_frame_num, settled_of, settled_with};
    ghost use Rattle.marking.specs.History.{AreApartFrom, AreNamed, HasRanges, MayBegin, Picture, StandsFor, own_number};

    /// No picture was finished.
    pub fn new() -> Marker
        ensures { StandsFor result [] }
    {
        Marker {
            frames: Frames::new(),
            indices: 0,
            last_frame_num: 0,
            orders: Orders {
                msb: 0,
                lsb: 0,
                before_frame_num: 0,
                offset: 0,
            },
        }
    }

    /// The picture whose first slice has this header, with the parameter sets that it names.
    pub fn begin(&self, sps: &Sps, pps: &Pps, header: &Header) -> Result<Begun, MarkFault>
        requires { (pictures : List Picture) × StandsFor self.now pictures × MayBegin pictures sps.now pps.now header.now }
        ensures value { result ≡ begun_of self.now sps.now pps.now header.now }
        ensures info { IfOk result (λ begun. IsAccepted 0 sps.now.max_num_ref_frames begun.info) }
        ensures frame { IfOk result (λ begun. begun.frame ≤ 16) }
        ensures apart { IfOk result (λ begun. AreApartFrom begun.frame begun.info.references) }
        ensures own { (pictures : List Picture) → StandsFor self.now pictures → IfOk result (λ begun. own_number pictures (record { sps = sps.now; header = header.now }) ≡ Some begun.frame) }
        ensures references { (pictures : List Picture) → StandsFor self.now pictures → MayBegin pictures sps.now pps.now header.now → IfOk result (λ begun. AreNamed pictures begun.info.references) }
    {
        match self.settled(sps, header) {
            Ok(settled) => Ok(begun_by(sps, pps, header, settled)),
            Err(fault) => Err(fault),
        }
    }

    /// The picture that `begin` gave is decoded, and marked.
    pub fn finish(&mut self, begun: &Begun)
        requires { (pictures : List Picture) × (sps : Sps) × (pps : Pps) × StandsFor self.old pictures × MayBegin pictures sps pps begun.now.header × (begun_of self.old sps pps begun.now.header ≡ Ok begun.now) }
        ensures { (pictures : List Picture) (sps : Sps) (pps : Pps) → StandsFor self.old pictures → MayBegin pictures sps pps begun.now.header → begun_of self.old sps pps begun.now.header ≡ Ok begun.now →
            StandsFor self.new (pictures ++ record { sps = sps; header = begun.now.header } ∷ []) }
    {
        let header = &begun.header;
        let numbers = Numbers {
            max_frame_num: begun.info.max_frame_num(),
            frame_num: header.frame_num,
            max_num_ref_frames: u32::from(begun.info.num_ref_frames),
        };
        let counts = Counts {
            top: begun.info.field_order_cnt[0],
            bottom: begun.info.field_order_cnt[1],
        };
        if let Some(settled) = self.settled_with(numbers, header, counts) {
            self.take(numbers, header, settled);
        }
    }

    #[tactic(auto, unfolding(crate::specs::Begun::settled_of))]
    fn settled(&self, sps: &Sps, header: &Header) -> Result<Settled, MarkFault>
        requires sps { IsAcceptedSps sps.now }
        requires ranges { (n : ℕ) × HasRanges self.now n × (n < 2 ^ 32) }
        requires frame_num { header.now.frame_num < max_frame_num sps.now }
        requires room { HasRoom header.now.marking }
        ensures { result ≡ settled_of self.now sps.now header.now }
    {
        if self.is_gap_fault(sps, header) {
            return Err(MarkFault::Gap);
        }
        let numbers = Numbers {
            max_frame_num: 1 << (sps.log2_max_frame_num_minus4 + 4),
            frame_num: header.frame_num,
            max_num_ref_frames: sps.max_num_ref_frames,
        };
        let Some(counts) = order_counts(&self.orders, sps, header) else {
            return Err(MarkFault::Refused);
        };
        match self.settled_with(numbers, header, counts) {
            Some(settled) => Ok(settled),
            None => Err(MarkFault::Refused),
        }
    }

    fn is_gap_fault(&self, sps: &Sps, header: &Header) -> bool
        requires sps { IsAcceptedSps sps.now }
        requires last { self.now.last_frame_num < 2 ^ 16 }
        ensures { result ≡ is_gap_fault self.now sps.now header.now }
    {
        if header.is_idr() {
            return header.frame_num != 0;
        }
        let next = self.next_frame_num(1 << (sps.log2_max_frame_num_minus4 + 4));
        header.frame_num != next
            && (!sps.gaps_in_frame_num_value_allowed_flag
                || header.frame_num == self.last_frame_num)
    }

    fn next_frame_num(&self, max_frame_num: u32) -> u32
        requires some { 0 < max_frame_num }
        requires last { self.now.last_frame_num < 2 ^ 16 }
        ensures value { result ≡ after_frame_num max_frame_num self.now.last_frame_num }
        ensures below { result < max_frame_num }
    {
        (self.last_frame_num + 1) % max_frame_num
    }

    #[tactic(auto, unfolding(crate::specs::Begun::settled_with))]
    fn settled_with(&self, numbers: Numbers, header: &Header, counts: Counts) -> Option<Settled>
        requires some { 0 < numbers.max_frame_num }
        requires range { numbers.max_frame_num ≤ 2 ^ 16 }
        requires frame_num { numbers.frame_num < numbers.max_frame_num }
        requires most { numbers.max_num_ref_frames ≤ 16 }
        requires last { self.now.last_frame_num < 2 ^ 16 }
        requires indices { self.now.indices ≤ 16 }
        requires room { HasRoom header.now.marking }
        ensures value { result ≡ settled_with self.now numbers header.now counts }
        ensures indices { IfSome result (λ settled. settled.marks.indices ≤ 16) }
    {
        let Some(frames) = self.frames_before(numbers, header) else {
            return None;
        };
        let number = frames.free_number();
        let own = Own {
            number,
            frame_num: numbers.frame_num,
            counts,
        };
        match marks_after(frames.copied(), self.indices, numbers, own, header) {
            Some(marks) => Some(Settled {
                frames,
                number,
                counts,
                marks,
            }),
            None => None,
        }
    }

    fn frames_before(&self, numbers: Numbers, header: &Header) -> Option<Frames>
        requires some { 0 < numbers.max_frame_num }
        requires range { numbers.max_frame_num ≤ 2 ^ 16 }
        requires frame_num { numbers.frame_num < numbers.max_frame_num }
        requires most { numbers.max_num_ref_frames ≤ 16 }
        requires last { self.now.last_frame_num < 2 ^ 16 }
        ensures { result ≡ frames_before self.now numbers header.now }
    {
        if header.is_idr() {
            return Some(self.frames.copied());
        }
        let next = self.next_frame_num(numbers.max_frame_num);
        let missing = (numbers.frame_num + numbers.max_frame_num - next) % numbers.max_frame_num;
        let from = Numbers {
            frame_num: next,
            ..numbers
        };
        filled(self.frames.copied(), from, missing)
    }

    fn take(&mut self, numbers: Numbers, header: &Header, settled: Settled)
        requires some { 0 < numbers.max_frame_num }
        requires range { numbers.max_frame_num ≤ 2 ^ 16 }
        requires frame_num { numbers.frame_num < numbers.max_frame_num }
        requires offset { self.old.orders.offset ≤ 2 ^ 48 }
        ensures { numbers.frame_num ≡ header.now.frame_num → self.new ≡ marker_after self.old numbers header.now settled }
    {
        let Settled { marks, counts, .. } = settled;
        let is_reset = marks.is_reset;
        self.orders = orders_after(
            numbers.max_frame_num,
            &self.orders,
            header,
            is_reset,
            counts,
        );
        self.last_frame_num = last_frame_num_after(numbers, header, is_reset);
        self.indices = marks.indices;
        self.frames = marks.frames;
    }
}
