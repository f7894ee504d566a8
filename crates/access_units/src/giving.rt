// The access unit in hand as a picture, where it is settled.
ghost use Rattle.std.specs.Prelude.{◌≡◌, ◌≤◌, ◌<◌, ◌+◌, ◌*◌, ℕ, List, ◌∷◌, None, Some, true, OnErr, IfOk, IfSome, drop, length, vec_len};
ghost use Rattle.access_units.specs.AccessUnits.{AccessUnit};
ghost use Rattle.access_units.specs.Acceptors.{IsAnswer, IsDecodableIn, Past};
ghost use Rattle.access_units.specs.Depth.{depth_of};
ghost use Rattle.access_units.specs.Giving.{IsOfferOf, IsReady, IsSound, bytes_at};
ghost use Rattle.access_units.specs.Hands.{Holds};
ghost use Rattle.access_units.specs.Pictures.{BeginsBehind, IsPicture, Picture, submission_of, with_count};
ghost use Rattle.access_units.specs.Readable.{IsReadable};
ghost use Rattle.access_units.specs.Standing.{AreWithin, StandsBehindAnswer, StandsFor};
ghost use Rattle.access_units.specs.Stands.{StandsBehind};
ghost use Rattle.param_sets.specs.Sps.{size_of};

use super::acceptor::{Acceptor, Next, Unsettled};
use super::content::Named;
use super::depth::depth_of;
use super::hand::InHand;
use super::taking::push_slice;
use marking::Begun;
use std::alloc::AllocError;
use submission::Submission;

// A picture that can be given.
#[derive(Drop)]
struct Offer {
    named: Named,
    begun: Begun,
    slices: u32,
    submission: Submission,
}

impl Acceptor {
    // Gives the access unit in hand, which is settled. Where there is no memory nothing changes.
    pub(super) fn give(&mut self) -> Result<Next, AllocError>
        requires past { (past : Past) × StandsFor self.old past × (past.outcome ≡ Some true) }
        requires ready { IsReady self.old }
        ensures answer { IfOk result (λ answer. (past : Past) → StandsFor self.old past → past.outcome ≡ Some true → IsAnswer past answer) }
        ensures stands { IfOk result (λ answer. (past : Past) → StandsFor self.old past → past.outcome ≡ Some true → StandsBehindAnswer self.new past answer) }
        ensures decodable { IfOk result (λ answer. (past : Past) → StandsFor self.old past → past.outcome ≡ Some true → IsDecodableIn past answer) }
        ensures untouched { OnErr result (self.new ≡ self.old) }
    {
        let Some(hand) = &self.hand else {
            return Ok(Next::End);
        };
        let offset = hand.offset;
        let large = hand.refused.unwrap_or(false);
        match self.offer(hand)? {
            Some(offer) => Ok(Next::Picture(self.hand_out(offset, offer))),
            None => Ok(Next::Refused { offset, large }),
        }
    }

    // The picture that the access unit is; None where it isn't accepted.
    fn offer(&self, hand: &InHand) -> Result<Option<Offer>, AllocError>
        requires held { self.now.hand ≡ Some hand.now }
        requires past { (past : Past) × StandsFor self.now past }
        ensures some { IfOk result (λ found. IfSome found (λ offer. (past : Past) (au : AccessUnit) → StandsFor self.now past → Holds hand.now past.text au → IsOfferOf past au offer)) }
        ensures sound { IfOk result (λ found. IfSome found IsSound) }
        ensures none { IfOk result (λ found. found ≡ None → (past : Past) (au : AccessUnit) (picture : Picture) → StandsFor self.now past → Holds hand.now past.text au → ¬ IsPicture past.given au picture) }
    {
        if hand.refused.is_some() {
            return Ok(None);
        }
        let Some(named) = &hand.first else {
            return Ok(None);
        };
        let Some(begun) = self.pictures.begin(named) else {
            return Ok(None);
        };
        let Some(submission) = self.submission_of(hand)? else {
            return Ok(None);
        };
        Ok(Some(Offer {
            named: *named,
            begun,
            slices: hand.slices.len() as u32,
            submission,
        }))
    }

    // The submission of an access unit's slices; None where they are too long.
    fn submission_of(&self, hand: &InHand) -> Result<Option<Submission>, AllocError>
        requires within { AreWithin self.now.from (self.now.from + vec_len self.now.bytes) hand.now.slices.items }
        ensures bytes { IfOk result (λ found. IfSome found (λ bytes. (text : List ℕ) → self.now.bytes.items ≡ drop self.now.from text → bytes ≡ submission_of (bytes_at text hand.now.slices.items))) }
        ensures fits { IfOk result (λ found. IfSome found (λ bytes. length bytes ≤ 67108864)) }
        ensures few { IfOk result (λ found. IfSome found (λ bytes. 3 * vec_len hand.now.slices ≤ length bytes)) }
        ensures too_long { IfOk result (λ found. found ≡ None → (text : List ℕ) → self.now.bytes.items ≡ drop self.now.from text → 67108864 < length (submission_of (bytes_at text hand.now.slices.items))) }
    {
        let mut submission = Submission::new(self.alloc);
        for place in &hand.slices {
            if !push_slice(&mut submission, self.text(*place))? {
                return Ok(None);
            }
        }
        Ok(Some(submission))
    }

    // The picture comes, and what was opened behind it is in hand.
    fn hand_out(&mut self, offset: u64, offer: Offer) -> Unsettled
        requires readable { IsReadable offer.named }
        requires behind { (before : List Picture) × StandsBehind self.old.pictures before × BeginsBehind before offer.named offer.begun }
        ensures shown { result ≡ record {
          offset = offset;
          begun = with_count offer.slices offer.begun;
          size = size_of offer.named.sps;
          depth = depth_of offer.named.sps;
          references = offer.named.sps.max_num_ref_frames;
          submission = offer.submission;
        } }
        ensures depth { result.depth ≤ 16 }
        ensures behind { (before : List Picture) (picture : Picture) (slices : ℕ) → StandsBehind self.old.pictures before → BeginsBehind before offer.named offer.begun →
            picture.sps ≡ offer.named.sps → picture.begun ≡ with_count slices offer.begun → StandsBehind self.new.pictures (picture ∷ before) }
        ensures rest { self.new ≡ record self.old { pictures = self.new.pictures; hand = self.old.opened; opened = None; last_offset = offset } }
    {
        let Offer {
            named,
            mut begun,
            slices,
            submission,
        } = offer;
        self.pictures.add(&named, &begun);
        begun.info.slice_count = slices;
        self.hand = self.opened.take();
        self.last_offset = offset;
        Unsettled {
            offset,
            begun,
            size: named.sps.size(),
            depth: depth_of(&named.sps),
            references: named.sps.max_num_ref_frames,
            submission,
        }
    }
}
