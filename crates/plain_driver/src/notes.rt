// The notes of the jobs that run.
ghost use Rattle.std.specs.Prelude.{◌≡◌, ◌==◌, ◌+◌, ◌^◌, ◌<◌, ℕ, length, map, OnErr, OnOk, IsTrue, false, filter, not};
ghost use Rattle.std.specs.List.{list_any};
ghost use Rattle.driver_model.specs.Histories.{Happens};
ghost use Rattle.driver_model.specs.States.{counted, free_number, has_note, is_note_of, with_note};
ghost use Rattle.driver_model.specs.declared.items.Item.TheVariants.{Ended};
ghost use Rattle.plain_driver.specs.States.{note_of, state_of};

use crate::driver::Plain;
use crate::objects::PlainNote;
use decoder_render::Outcome;
use std::alloc::{AllocError, Global};

impl Plain {
    /// Counts an item that has happened.
    pub fn count(&mut self)
        requires { self.old.items + 1 < 2 ^ 64 }
        ensures { state_of self.new ≡ counted (state_of self.old) }
    {
        self.items += 1;
    }

    /// The job that this caller began at this place ends: its note goes, and the end is counted. Nothing
    /// happens where there is no such note.
    pub fn end(&mut self, caller: &[u64], place: u64) -> bool
        requires { self.old.items + 1 < 2 ^ 64 }
        ensures noted { result ≡ has_note (state_of self.old) caller.now place }
        ensures ended { IsTrue result → Happens (state_of self.old) (Ended (record { caller = caller.now; place = place })) (state_of self.new) }
        ensures absent { result ≡ false → state_of self.new ≡ state_of self.old }
    {
        if !is_noted(&self.notes, caller, place) {
            return false;
        }
        remove_note(&mut self.notes, caller, place);
        self.items += 1;
        true
    }

    // A caller begins a job that writes the object at a place.
    pub(crate) fn note(
        &mut self,
        alloc: Global,
        caller: &[u64],
        target: usize,
        outcome: Outcome,
    ) -> Result<(), AllocError>
        ensures ok { OnOk result (state_of self.new ≡ with_note (state_of self.old) caller.now target outcome) }
        ensures err { OnErr result (state_of self.new ≡ state_of self.old) }
    {
        let caller = Vec::from_slice(alloc, caller)?;
        let number = free_number(&self.notes);
        self.notes.push(PlainNote {
            place: self.items,
            caller,
            target,
            outcome,
            number,
        })?;
        Ok(())
    }
}

// The least number that no note has.
fn free_number(notes: &[PlainNote]) -> usize
    ensures { result ≡ free_number (map (λ note. note.number) notes.now) }
{
    for number in 0..notes.len() {
        if !has_number(notes, number) {
            return number;
        }
    }
    notes.len()
}

fn has_number(notes: &[PlainNote], number: usize) -> bool
    ensures { result ≡ list_any (λ note. note.number == number) notes.now }
{
    notes.iter().any(|note| note.number == number)
}

fn is_note_of(note: &PlainNote, caller: &[u64], place: u64) -> bool
    ensures { result ≡ is_note_of caller.now place (note_of note.now) }
{
    note.place == place && caller == note.caller.as_slice()
}

fn is_noted(notes: &[PlainNote], caller: &[u64], place: u64) -> bool
    ensures { result ≡ list_any (λ note. is_note_of caller.now place (note_of note)) notes.now }
{
    notes.iter().any(|note| is_note_of(note, caller, place))
}

// Removes the notes of this caller and place.
fn remove_note(notes: &mut Vec<PlainNote>, caller: &[u64], place: u64)
    ensures { notes.new.items ≡ filter (λ note. not (is_note_of caller.now place (note_of note))) notes.old.items }
{
    notes.retain(|note| !is_note_of(note, caller, place));
}
