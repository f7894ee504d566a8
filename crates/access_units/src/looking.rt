// The search for the next unit of the text.
ghost use Rattle.std.specs.Prelude.{◌≡◌, ◌≢◌, ◌≤◌, ◌<◌, ◌+◌, ◌^◌, ◌⊎◌, ℕ, List, [], ◌++◌, Bool, true, false, Option, None, Some, length};

use super::acceptor::Acceptor;
use super::hand::InHand;
use nal_units::Found;

impl Acceptor {
    ghost use Rattle.access_units.specs.AccessUnits.{AccessUnit, broken_off};
    ghost use Rattle.access_units.specs.Contents.{Told};
    ghost use Rattle.access_units.specs.Standing.{IsFurther, Keeps, KeepsRest, Reads, Within};
    ghost use Rattle.nal_units.specs.Finder as finder;
    ghost use Rattle.nal_units.specs.Settled.{Settles, broken_in, unit_in};
    ghost use Rattle.nal_units.specs.Units.{Units};

    // Whether there is a unit that isn't taken in yet; if need be, it is looked for.
    pub(crate) fn find(&mut self) -> bool
        requires { (text : List ℕ) × (ended : Bool) × (told : List Told) × (broken : Option ℕ) × (hand front : List AccessUnit) × Reads self.old text ended told broken [] hand front }
        ensures reads { (text : List ℕ) (ended : Bool) (told : List Told) (broken : Option ℕ) (hand front : List AccessUnit) → Reads self.old text ended told broken [] hand front →
            (after : Option ℕ) × (hand_after : List AccessUnit) × Reads self.new text ended told after [] hand_after front }
        ensures rest { KeepsRest self.old self.new }
        ensures found { (result ≡ true) → self.new.found ≢ None }
        ensures opened { self.new.opened ≡ self.old.opened }
        ensures none { (result ≡ false) → (self.new.found ≡ None) × ((self.new.is_over ≡ true) ⊎ (self.new.looked ≡ self.new.from + length self.new.bytes.items)) }
        ensures end { self.old.ended ≡ true → result ≡ false → self.new.is_over ≡ true }
        ensures further { IsFurther self.old self.new }
    {
        if self.found.is_some() || self.is_over {
            return self.found.is_some();
        }
        self.look();
        self.found.is_some()
    }

    // Looks on until something is found, or up to the end of what was fed.
    pub(crate) fn look(&mut self)
        requires nothing { self.old.found ≡ None }
        requires on { self.old.is_over ≡ false }
        requires reads { (text : List ℕ) × (ended : Bool) × (told : List Told) × (broken : Option ℕ) × (hand front : List AccessUnit) × Reads self.old text ended told broken [] hand front }
        ensures reads { (text : List ℕ) (ended : Bool) (told : List Told) (broken : Option ℕ) (hand front : List AccessUnit) → Reads self.old text ended told broken [] hand front →
            (after : Option ℕ) × (hand_after : List AccessUnit) × Reads self.new text ended told after [] hand_after front }
        ensures rest { KeepsRest self.old self.new }
        ensures all { self.new.found ≡ None → (self.new.is_over ≡ true) ⊎ (self.new.looked ≡ self.new.from + length self.new.bytes.items) }
        ensures end { self.old.ended ≡ true → self.new.found ≡ None → self.new.is_over ≡ true }
        ensures opened { self.new.opened ≡ self.old.opened }
        ensures further { IsFurther self.old self.new }
    {
        let start = (self.looked - self.from) as usize;
        let (taken, found) = self.finder.push_slice(&self.bytes[start..]);
        self.looked += taken as u64;
        let found = self.at_end(found);
        match found {
            Found::Nothing => (),
            Found::Unit { start, end } => self.found = Some((start, end)),
            Found::Broken { .. } => self.break_off(),
        }
    }

    // What is found, where the end of the file may come behind it.
    pub(crate) fn at_end(&mut self, found: Found) -> Found
        requires { (text : List ℕ) × finder.StandsFor self.old.finder text × (length text ≤ 2 ^ 63) }
        ensures kept { ((result ≡ found) × (self.new ≡ self.old)) ⊎ ((self.old.ended ≡ true) × (found ≡ Found.Nothing) × (self.new ≡ record (self.old) { is_over = true; finder = self.new.finder })) }
        ensures end { self.old.ended ≡ true → found ≡ Found.Nothing → self.new.is_over ≡ true }
        ensures units { self.old.ended ≡ true → found ≡ Found.Nothing → (text : List ℕ) (settled : List (ℕ × ℕ)) → finder.StandsFor self.old.finder text → Settles text settled None →
            Units text (settled ++ unit_in result) (broken_in result) }
    {
        if self.ended && found == Found::Nothing {
            self.is_over = true;
            self.finder.finish()
        } else {
            found
        }
    }

    // The text is broken: that refuses the access unit in hand, or one at the beginning where there is none.
    pub(crate) fn break_off(&mut self)
        ensures hand { (text : List ℕ) (hand front : List AccessUnit) → Keeps self.old.hand text hand → (hand ≡ [] → front ≡ []) →
            (hand_after : List AccessUnit) × Keeps self.new.hand text hand_after × (hand_after ≢ []) × (broken_off (hand ++ front) ≡ hand_after ++ front) }
        ensures within { (from to : ℕ) → Within self.old.hand from to → (self.old.hand ≡ None → from ≡ 0) → Within self.new.hand from to }
        ensures kept { self.new ≡ record (self.old) { is_over = true; hand = self.new.hand } }
    {
        self.is_over = true;
        if let Some(hand) = &mut self.hand {
            hand.refuse_at_end();
            return;
        }
        let mut nothing = InHand::empty_at(self.alloc, 0);
        nothing.refuse_at_end();
        self.hand = Some(nothing);
    }
}
