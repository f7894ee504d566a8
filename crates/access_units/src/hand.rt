// The access unit in hand.
ghost use Rattle.std.specs.Prelude.{◌≡◌, ◌≢◌, ◌↔◌, ◌%◌, ◌++◌, ℕ, IsTrue, List, [], ◌∷◌, None, Some, Option, OnOk, OnErr, nat_le, if◌then◌else◌, false};
ghost use Rattle.std.specs.Option.{option_or};
ghost use Rattle.access_units.specs.AccessUnits.{AccessUnit, begins_another, empty_at, goes_on, refusal_in, refused_at_end, stands_before_slices, with_unit};
ghost use Rattle.access_units.specs.Contents.{Told};
ghost use Rattle.access_units.specs.Hands.{Holds, IsOf, IsUnchanged};
ghost use Rattle.access_units.specs.declared.content.Named.{Named};

use super::content::{Content, Named};
use super::same_picture::are_of_one_picture;
use std::alloc::{AllocError, Global};

/// A NAL unit of the text, from its first place up to the place after its last byte, with its first byte
/// and what it tells.
#[derive(Clone, Copy, Debug)]
pub struct NalUnit {
    pub start: u64,
    pub end: u64,
    pub first_byte: u8,
    pub content: Content,
}

impl NalUnit {
    // Whether the unit is refused, and then whether it is a sequence set of too large pictures.
    fn refusal(&self) -> Option<bool>
        ensures { result ≡ (if nat_le 128 self.now.first_byte then Some false else refusal_in self.now.content) }
    {
        if self.first_byte >= 128 {
            return Some(false);
        }
        match self.content {
            Content::Refused => Some(false),
            Content::TooLarge => Some(true),
            _ => None,
        }
    }

    // Whether a unit of this type begins an access unit wherever the one before has a slice.
    fn stands_before_slices(&self) -> bool
        ensures { result ≡ stands_before_slices (self.now.first_byte % 32) }
    {
        matches!(self.first_byte % 32, 6..=9 | 14..=18)
    }
}

/// An access unit, as far as its units came: the places of its slices stand for their bytes in the text.
#[derive(Drop)]
pub struct InHand {
    pub offset: u64,
    pub refused: Option<bool>,
    pub slices: Vec<(u64, u64)>,
    pub first: Option<Named>,
    last: Option<Named>,
}

impl InHand {
    /// No unit yet, where the first one begins at a place.
    pub fn empty_at(alloc: Global, offset: u64) -> InHand
        ensures holds { (text : List ℕ) → Holds result text (empty_at offset) }
        ensures slices { result.slices.items ≡ [] }
    {
        InHand {
            offset,
            refused: None,
            slices: Vec::new(alloc),
            first: None,
            last: None,
        }
    }

    /// Whether the unit begins another access unit behind this one.
    pub fn begins_another(&self, unit: &NalUnit) -> bool
        ensures { (text : List ℕ) (au : AccessUnit) (told : Told) → Holds self.now text au → IsOf unit.now text told → result ≡ begins_another au told }
    {
        if self.slices.is_empty() {
            return false;
        }
        match &unit.content {
            Content::Slice(named) => !self.goes_on(named),
            _ => unit.stands_before_slices(),
        }
    }

    // Whether a slice goes on with the picture of the slice before.
    fn goes_on(&self, named: &Option<Named>) -> bool
        ensures { result ≡ goes_on self.now.last named.now }
    {
        match (&self.last, named) {
            (Some(before), Some(named)) => are_of_one_picture(&before.header, &named.header),
            _ => false,
        }
    }

    /// Takes in a unit that is a slice, with its header. Where there is no memory nothing changes.
    pub fn add_slice(&mut self, unit: &NalUnit, named: Option<Named>) -> Result<(), AllocError>
        requires slice { unit.now.content ≡ Content.Slice named }
        ensures added { OnOk result ((text : List ℕ) (au : AccessUnit) (told : Told) → Holds self.old text au → IsOf unit.now text told → Holds self.new text (with_unit au told)) }
        ensures places { OnOk result (self.new.slices.items ≡ self.old.slices.items ++ (unit.now.start, unit.now.end) ∷ []) }
        ensures untouched { OnErr result (IsUnchanged self.old self.new) }
    {
        self.slices.push((unit.start, unit.end))?;
        if self.slices.len() == 1 {
            self.first = named;
        }
        self.last = named;
        self.note(unit);
        Ok(())
    }

    /// Takes in a unit that is no slice.
    pub fn add_other(&mut self, unit: &NalUnit)
        requires other { (named : Option Named) → unit.now.content ≢ Content.Slice named }
        ensures added { (text : List ℕ) (au : AccessUnit) (told : Told) → Holds self.old text au → IsOf unit.now text told → Holds self.new text (with_unit au told) }
        ensures places { self.new.slices.items ≡ self.old.slices.items }
    {
        self.note(unit);
    }

    // The first refused unit counts.
    fn note(&mut self, unit: &NalUnit)
        ensures { self.new ≡ record self.old { refused = option_or self.old.refused (if nat_le 128 unit.now.first_byte then Some false else refusal_in unit.now.content) } }
    {
        if self.refused.is_none() {
            self.refused = unit.refusal();
        }
    }

    /// Whether it is what a text may end with: units without a slice, of which none is refused.
    pub fn is_tail(&self) -> bool
        ensures { IsTrue result ↔ ((self.now.refused ≡ None) × (self.now.slices.items ≡ [])) }
    {
        self.refused.is_none() && self.slices.is_empty()
    }

    /// The text is broken behind it.
    pub fn refuse_at_end(&mut self)
        ensures refused { (text : List ℕ) (au : AccessUnit) → Holds self.old text au → Holds self.new text (refused_at_end au) }
        ensures kept { self.new ≡ record (self.old) { refused = self.new.refused } }
    {
        if self.refused.is_none() {
            self.refused = Some(false);
        }
    }
}
