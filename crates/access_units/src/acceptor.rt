//! The pictures of a file that comes in pieces, as far as its slices' headers tell.

ghost use Rattle.std.specs.Prelude.{◌≡◌, ◌≢◌, ◌⊎◌, ℕ, Bool, true, false, List, [], Option, Some, None, Ok, OnOk, OnErr, IfOk};

use super::hand::InHand;
use super::pictures::Pictures;
use super::sets::KnownSets;
use cb_types::SizeMbs;
use marking::Begun;
use nal_units::Finder;
use std::alloc::{AllocError, Global};
use submission::Submission;

/// A picture whose slices are still to be decoded.
#[derive(Drop)]
pub struct Unsettled {
    /// The place of the first byte of its access unit's first NAL unit.
    pub offset: u64,
    /// What it begins with; the info has the number of its slices.
    pub begun: Begun,
    pub size: SizeMbs,
    /// How many pictures of its period may wait for their turn to come out.
    pub depth: u32,
    /// max_num_ref_frames of its sequence set.
    pub references: u32,
    /// Its slices, each behind `00 00 01`.
    pub submission: Submission,
}

/// What an acceptor answers.
#[derive(Drop)]
pub enum Next {
    /// More bytes, or the end, are wanted.
    Hungry,
    /// The next picture. It is to be settled before anything else.
    Picture(Unsettled),
    /// All pictures of the file were given.
    End,
    /// The access unit at this place isn't accepted; `large` says that the first refused unit of it is a
    /// sequence set of larger pictures than this decoder takes.
    Refused { offset: u64, large: bool },
}

/// Takes a file's bytes in pieces, and gives its pictures one after the other, each with the bytes of its
/// slices and what they are to be decoded with.
///
/// It looks at each byte once, and keeps no more of the file than the access unit in hand and what was fed
/// behind it. Where memory is wanted, a call changes nothing that a later answer shows.
#[derive(Drop)]
pub struct Acceptor {
    pub(super) alloc: Global,
    // The text from place `from` on.
    pub(super) bytes: Vec<u8>,
    pub(super) from: u64,
    pub(super) ended: bool,
    pub(super) finder: Finder,
    // The place up to which the finder has looked.
    pub(super) looked: u64,
    // A unit that isn't taken in yet.
    pub(super) found: Option<(u64, u64)>,
    // The finder has nothing more to find.
    pub(super) is_over: bool,
    pub(super) known: KnownSets,
    pub(super) hand: Option<InHand>,
    // The access unit behind the one in hand, of one unit.
    pub(super) opened: Option<InHand>,
    pub(super) pictures: Pictures,
    // The place of the last picture given, and whether its slices came to no whole picture.
    pub(super) last_offset: u64,
    pub(super) has_failed: bool,
}

impl Acceptor {
    ghost use Rattle.access_units.specs.Acceptors.{IsAnswer, IsDecodableIn, MayAsk, MayFeed, Past, fed, no_past, settling};
    ghost use Rattle.access_units.specs.Answers.{StaysIfLast};
    ghost use Rattle.access_units.specs.AccessUnits.{AccessUnit};
    ghost use Rattle.access_units.specs.Contents.{Told};
    ghost use Rattle.access_units.specs.Gathering.{HasTail, IsLookedThrough, ReadsFurther, Wants};
    ghost use Rattle.access_units.specs.Giving.{IsReady};
    ghost use Rattle.access_units.specs.Standing.{IsFurther, KeepsRest, Reads, StandsBehindAnswer, StandsFor};
    ghost use Rattle.access_units.specs.Taking.{IsReading};

    /// Nothing was fed.
    pub fn new(alloc: Global) -> Acceptor
        ensures { StandsFor result no_past }
    {
        Acceptor {
            alloc,
            bytes: Vec::new(alloc),
            from: 0,
            ended: false,
            finder: Finder::new(),
            looked: 0,
            found: None,
            is_over: false,
            known: KnownSets::new(alloc),
            hand: None,
            opened: None,
            pictures: Pictures::new(),
            last_offset: 0,
            has_failed: false,
        }
    }

    /// Takes the next bytes of the file; an empty slice is its end.
    pub fn feed(&mut self, bytes: &[u8]) -> Result<(), AllocError>
        requires { (past : Past) × StandsFor self.old past × MayFeed past bytes.now }
        ensures fed { OnOk result ((past : Past) → StandsFor self.old past → MayFeed past bytes.now → StandsFor self.new (fed past bytes.now)) }
        ensures untouched { OnErr result ((past : Past) → StandsFor self.old past → StandsFor self.new past) }
    {
        if bytes.is_empty() {
            self.ended = true;
            return Ok(());
        }
        self.forget();
        self.bytes.extend_from_slice(bytes)?;
        Ok(())
    }

    // Forgets what stands before the access unit in hand.
    fn forget(&mut self)
        requires { IsReading self.old }
        ensures reads { (text : List ℕ) (ended : Bool) (told : List Told) (broken : Option ℕ) (opened hand front : List AccessUnit) →
            Reads self.old text ended told broken opened hand front → Reads self.new text ended told broken opened hand front }
        ensures rest { self.new ≡ record (self.old) { bytes = self.new.bytes; from = self.new.from } }
    {
        if let Some(hand) = &self.hand {
            let past = (hand.offset - self.from) as usize;
            self.bytes.drain(..past);
            self.from = hand.offset;
        }
    }

    /// The next picture, or what stands in its way. Behind the end, and behind a refusal, the same is answered
    /// again, whatever is fed.
    pub fn next(&mut self) -> Result<Next, AllocError>
        requires { (past : Past) × StandsFor self.old past × MayAsk past }
        ensures answer { IfOk result (λ answer. (past : Past) → StandsFor self.old past → MayAsk past → IsAnswer past answer) }
        ensures stands { IfOk result (λ answer. (past : Past) → StandsFor self.old past → MayAsk past → StandsBehindAnswer self.new past answer) }
        ensures decodable { IfOk result (λ answer. (past : Past) → StandsFor self.old past → MayAsk past → IsDecodableIn past answer) }
        ensures stays { IfOk result (λ answer. (past : Past) → StandsFor self.old past → MayAsk past → StaysIfLast past answer) }
        ensures untouched { OnErr result ((past : Past) → StandsFor self.old past → StandsFor self.new past) }
    {
        if self.has_failed {
            return Ok(Next::Refused {
                offset: self.last_offset,
                large: false,
            });
        }
        if !self.gather()? {
            return Ok(self.wanting());
        }
        self.give()
    }

    // The answer where no access unit is settled that counts.
    fn wanting(&self) -> Next
        requires { Wants self.now }
        ensures answer { (past : Past) → StandsFor self.now past → past.outcome ≡ Some true → IsAnswer past result }
        ensures stands { (past : Past) → StandsFor self.now past → past.outcome ≡ Some true → StandsBehindAnswer self.now past result }
        ensures decodable { (past : Past) → IsDecodableIn past result }
    {
        if self.ended {
            return Next::End;
        }
        Next::Hungry
    }

    /// Whether the slices of the picture given came to the whole picture.
    pub fn settle(&mut self, accepted: bool)
        requires { (past : Past) × StandsFor self.old past × (past.outcome ≡ None) }
        ensures { (past : Past) → StandsFor self.old past → past.outcome ≡ None → StandsFor self.new (settling past accepted) }
    {
        self.has_failed = !accepted;
    }

    // Takes units in until the access unit in hand is settled: whether it is, and counts.
    fn gather(&mut self) -> Result<bool, AllocError>
        requires { IsReading self.old }
        ensures reads { (text : List ℕ) (ended : Bool) (told : List Told) (broken : Option ℕ) (opened hand front : List AccessUnit) →
            Reads self.old text ended told broken opened hand front → ReadsFurther self.new text ended front }
        ensures rest { KeepsRest self.old self.new }
        ensures ready { result ≡ Ok true → IsReady self.new }
        ensures wants { result ≡ Ok false → Wants self.new }
    {
        while self.wants_unit() {
            self.take_in()?;
        }
        if self.opened.is_some() {
            return Ok(true);
        }
        Ok(self.has_last())
    }

    // Whether there is a unit to be taken in, where the access unit in hand isn't settled by another one.
    fn wants_unit(&mut self) -> bool
        requires { IsReading self.old }
        ensures reads { (text : List ℕ) (ended : Bool) (told : List Told) (broken : Option ℕ) (opened hand front : List AccessUnit) →
            Reads self.old text ended told broken opened hand front → ReadsFurther self.new text ended front }
        ensures rest { KeepsRest self.old self.new }
        ensures yes { result ≡ true → (self.new.opened ≡ None) × (self.new.found ≢ None) }
        ensures no { result ≡ false → IsLookedThrough self.new }
        ensures further { IsFurther self.old self.new }
    {
        if self.opened.is_some() {
            return false;
        }
        self.find()
    }

    // Whether the access unit in hand is the last one, and more than a tail without slices.
    fn has_last(&self) -> bool
        ensures yes { result ≡ true → (self.now.is_over ≡ true) × ((held : InHand) × (self.now.hand ≡ Some held) × (held.refused ≡ None → held.slices.items ≡ [] → ⊥)) }
        ensures no { result ≡ false → self.now.is_over ≡ true → HasTail self.now.hand }
    {
        match &self.hand {
            Some(hand) => self.is_over && !hand.is_tail(),
            None => false,
        }
    }
}
