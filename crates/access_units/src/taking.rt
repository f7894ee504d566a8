// Takes the NAL units of a text into its access units.
ghost use Rattle.std.specs.Prelude.{◌≡◌, ◌≢◌, ◌+◌, ◌-◌, ◌<◌, ◌≤◌, ◌++◌, ◌⊎◌, ℕ, Bool, List, [], ◌∷◌, None, Some, Option, IfOk, IsErrOf, OnErr, OnOk, drop, length, slice_range, vec_len, alloc_error};
ghost use Rattle.std.specs.Bool.{OnFalse, OnTrue};
ghost use Rattle.access_units.specs.AccessUnits.{AccessUnit};
ghost use Rattle.access_units.specs.Contents.{Tells, Told, with_content};
ghost use Rattle.access_units.specs.Hands.{IsOf, IsUnchanged};
ghost use Rattle.access_units.specs.Known.{IsKnownTo};
ghost use Rattle.access_units.specs.Readable.{IsReadableContent};
ghost use Rattle.access_units.specs.Sets.{Sets};
ghost use Rattle.access_units.specs.Standing.{Reads};
ghost use Rattle.access_units.specs.Taking.{Begins, GoesOn, HasMore, IsReading, Opens, ReadsOn, TakesNone, told_at};

use super::acceptor::Acceptor;
use super::content::{Content, content_of};
use super::hand::{InHand, NalUnit};
use super::sets::KnownSets;
use std::alloc::AllocError;
use submission::{Submission, SubmissionFault};

impl Acceptor {
    // Takes the unit in that was found. Where there is no memory nothing changes.
    pub(super) fn take_in(&mut self) -> Result<(), AllocError>
        requires { IsReading self.old }
        ensures taken { OnOk result ((text : List ℕ) (ended : Bool) (told : List Told) (broken : Option ℕ) (hand front : List AccessUnit) →
            Reads self.old text ended told broken [] hand front → self.old.found ≢ None → ReadsOn self.new text ended told broken front) }
        ensures found { OnOk result (self.new.found ≡ None) }
        ensures untouched { OnErr result ((text : List ℕ) (ended : Bool) (told : List Told) (broken : Option ℕ) (opened hand front : List AccessUnit) →
            Reads self.old text ended told broken opened hand front → Reads self.new text ended told broken opened hand front) }
        ensures rest { self.new ≡ record self.old { found = self.new.found; known = self.new.known; hand = self.new.hand; opened = self.new.opened } }
    {
        let Some(place) = self.found else {
            return Ok(());
        };
        let unit = self.unit_at(place)?;
        self.take(&unit)?;
        self.found = None;
        Ok(())
    }

    // Takes the unit into the access unit in hand, or opens another one.
    fn take(&mut self, unit: &NalUnit) -> Result<(), AllocError>
        requires { IsReadableContent unit.now.content }
        ensures taken { OnOk result (GoesOn self.old self.new unit.now ⊎ (Begins self.old.hand unit.now × Opens self.old self.new unit.now)) }
        ensures known { OnOk result ((sets : Sets) → IsKnownTo self.old.known sets → IsKnownTo self.new.known (with_content unit.now.content sets)) }
        ensures none { OnErr result (TakesNone self.old self.new) }
        ensures rest { self.new ≡ record self.old { known = self.new.known; hand = self.new.hand; opened = self.new.opened } }
    {
        match &mut self.hand {
            Some(hand) if !hand.begins_another(unit) => take_unit(hand, &mut self.known, unit),
            _ => self.open(unit),
        }
    }

    // The unit begins an access unit.
    fn open(&mut self, unit: &NalUnit) -> Result<(), AllocError>
        requires { IsReadableContent unit.now.content }
        ensures opened { OnOk result (Opens self.old self.new unit.now) }
        ensures known { OnOk result ((sets : Sets) → IsKnownTo self.old.known sets → IsKnownTo self.new.known (with_content unit.now.content sets)) }
        ensures none { OnErr result (TakesNone self.old self.new) }
        ensures rest { self.new ≡ record self.old { known = self.new.known; hand = self.new.hand; opened = self.new.opened } }
    {
        let mut opened = InHand::empty_at(self.alloc, unit.start);
        take_unit(&mut opened, &mut self.known, unit)?;
        if self.hand.is_none() {
            self.hand = Some(opened);
        } else {
            self.opened = Some(opened);
        }
        Ok(())
    }

    // The unit at a place, with what it tells.
    fn unit_at(&self, place: (u64, u64)) -> Result<NalUnit, AllocError>
        requires from { self.now.from ≤ place.0 }
        requires some { place.0 < place.1 }
        requires to { place.1 ≤ self.now.from + vec_len self.now.bytes }
        requires known { (sets : Sets) × IsKnownTo self.now.known sets }
        ensures is { IfOk result (λ unit. (text : List ℕ) → self.now.bytes.items ≡ drop self.now.from text → IsOf unit text (told_at text place unit.content)) }
        ensures tells { IfOk result (λ unit. (text : List ℕ) (sets : Sets) → self.now.bytes.items ≡ drop self.now.from text → IsKnownTo self.now.known sets →
            Tells sets (slice_range text place.0 place.1) unit.content) }
        ensures readable { IfOk result (λ unit. IsReadableContent unit.content) }
    {
        let bytes = self.text(place);
        Ok(NalUnit {
            start: place.0,
            end: place.1,
            first_byte: bytes[0],
            content: content_of(self.alloc, &self.known, bytes)?,
        })
    }

    // The bytes of the text from one place up to another.
    pub(super) fn text(&self, place: (u64, u64)) -> &[u8]
        requires from { self.now.from ≤ place.0 }
        requires ordered { place.0 ≤ place.1 }
        requires to { place.1 ≤ self.now.from + vec_len self.now.bytes }
        ensures bytes { (text : List ℕ) → self.now.bytes.items ≡ drop self.now.from text → result.now ≡ slice_range text place.0 place.1 }
        ensures len { length result.now ≡ place.1 - place.0 }
    {
        &self.bytes[(place.0 - self.from) as usize..(place.1 - self.from) as usize]
    }
}

// Adds a slice behind its start code; false where that is too long.
pub fn push_slice(submission: &mut Submission, slice: &[u8]) -> Result<bool, AllocError>
    ensures added { IfOk result (λ fits. OnTrue fits (submission.new ≡ submission.old ++ (0 ∷ 0 ∷ 1 ∷ slice.now))) }
    ensures fits { IfOk result (λ fits. OnTrue fits (length submission.old + 3 + length slice.now ≤ 67108864)) }
    ensures too_long { IfOk result (λ fits. OnFalse fits (67108864 < length submission.old + 3 + length slice.now)) }
{
    match pushed(submission, slice) {
        Ok(()) => Ok(true),
        Err(SubmissionFault::TooLong { .. }) => Ok(false),
        Err(SubmissionFault::OutOfMemory) => Err(AllocError),
    }
}

fn pushed(submission: &mut Submission, slice: &[u8]) -> Result<(), SubmissionFault>
    ensures added { OnOk result (submission.new ≡ submission.old ++ (0 ∷ 0 ∷ 1 ∷ slice.now)) }
    ensures fits { OnOk result (length submission.old + 3 + length slice.now ≤ 67108864) }
    ensures too_long { (total : ℕ) → IsErrOf result (SubmissionFault.TooLong total) → 67108864 < length submission.old + 3 + length slice.now }
{
    submission.push(&[0, 0, 1])?;
    submission.push(slice)
}

// Takes a unit into an access unit, and the set that it is to the known ones.
fn take_unit(hand: &mut InHand, known: &mut KnownSets, unit: &NalUnit) -> Result<(), AllocError>
    requires { IsReadableContent unit.now.content }
    ensures more { OnOk result (HasMore hand.old hand.new unit.now) }
    ensures known { OnOk result ((sets : Sets) → IsKnownTo known.old sets → IsKnownTo known.new (with_content unit.now.content sets)) }
    ensures unchanged { OnErr result (IsUnchanged hand.old hand.new) }
    ensures known_stays { OnErr result ((sets : Sets) → IsKnownTo known.old sets → IsKnownTo known.new sets) }
{
    if let Content::Slice(named) = &unit.content {
        return hand.add_slice(unit, *named);
    }
    put_set(known, &unit.content)?;
    hand.add_other(unit);
    Ok(())
}

// The set that a unit is becomes known.
fn put_set(known: &mut KnownSets, content: &Content) -> Result<(), AllocError>
    requires { IsReadableContent content.now }
    ensures put { OnOk result ((sets : Sets) → IsKnownTo known.old sets → IsKnownTo known.new (with_content content.now sets)) }
    ensures stays { OnErr result ((sets : Sets) → IsKnownTo known.old sets → IsKnownTo known.new sets) }
{
    match content {
        Content::SequenceSet(sps) => known.put_sequence_set(sps),
        Content::PictureSet(pps) => known.put_picture_set(pps),
        _ => Ok(()),
    }
}
