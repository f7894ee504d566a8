// The modification of a reference list (H.264, 8.2.4.3).
ghost use Rattle.std.specs.Prelude.{◌≡◌, ◌≤◌, ◌<◌, ◌&&◌, ℕ, IfSome, MatchOption, None, Some, drop, find, length, not, take};
ghost use Rattle.std.specs.Ordering.{int_eq};
ghost use Rattle.cb_types.specs.AcceptedInfo.{IsAcceptedBySome, max_frame_num};
ghost use Rattle.ref_lists.specs.Places.{placed};
ghost use Rattle.ref_lists.specs.ReferenceList.{IsCounted, counted_to, is_meant, is_other, moved_up, numbers_of, references_of, unwrapped};

use super::list::RefList;
use super::order::unwrapped;
use cb_types::{Header, ListEdit, PictureInfo, Reference};

/// The frame number that an edit counts to (picNumLXNoWrap of H.264, 8.2.4.3.1), modulo MaxFrameNum.
pub fn counted_to(info: &PictureInfo, header: &Header, predicted: u32, edit: ListEdit) -> u32
    requires info { IsAcceptedBySome info.now }
    requires predicted { predicted < max_frame_num info.now }
    requires edit { IsCounted (max_frame_num info.now) edit }
    ensures value { result ≡ counted_to (numbers_of info.now header.now) predicted edit }
    ensures below { result < max_frame_num info.now }
{
    let _header = header;
    let max = info.max_frame_num();
    match edit {
        ListEdit::Subtract(minus1) => (predicted + max - (minus1 + 1)) % max,
        ListEdit::Add(minus1) => (predicted + minus1 + 1) % max,
        ListEdit::Long(_) => predicted,
    }
}

/// The place of the reference that an edit means.
pub fn find(info: &PictureInfo, header: &Header, counted: u32, edit: ListEdit) -> Option<u8>
    requires info { IsAcceptedBySome info.now }
    requires counted { counted < max_frame_num info.now }
    ensures found { MatchOption result (find (is_meant (numbers_of info.now header.now) counted edit) (references_of info.now) ≡ None)
        (λ place. find (is_meant (numbers_of info.now header.now) counted edit) (references_of info.now) ≡ Some (placed info.now place)) }
    ensures place { IfSome result (λ place. place < 16) }
{
    for place in 0..16 {
        let entry = &info.references[place];
        if !entry.is_unused() && is_meant(info, header, counted, edit, entry) {
            return Some(place as u8);
        }
    }
    None
}

fn is_meant(
    info: &PictureInfo,
    header: &Header,
    counted: u32,
    edit: ListEdit,
    entry: &Reference,
) -> bool
    requires info { IsAcceptedBySome info.now }
    requires counted { counted < max_frame_num info.now }
    ensures { (place : ℕ) → result ≡ is_meant (numbers_of info.now header.now) counted edit (place, entry.now) }
{
    match edit {
        ListEdit::Long(number) => entry.is_long_term && u32::from(entry.frame_idx) == number,
        ListEdit::Subtract(_) => is_short_term(info, header, counted, entry),
        ListEdit::Add(_) => is_short_term(info, header, counted, entry),
    }
}

// Whether the entry is the short-term reference of this frame number.
fn is_short_term(info: &PictureInfo, header: &Header, counted: u32, entry: &Reference) -> bool
    requires info { IsAcceptedBySome info.now }
    requires counted { counted < max_frame_num info.now }
    ensures { result ≡ (not entry.now.is_long_term && int_eq (unwrapped (numbers_of info.now header.now) entry.now.frame_idx) (unwrapped (numbers_of info.now header.now) counted)) }
{
    !entry.is_long_term
        && unwrapped(info, header, u32::from(entry.frame_idx)) == unwrapped(info, header, counted)
}

/// Puts a reference at the next place of a list that isn't settled: the others move up, and its later
/// occurrence goes.
pub fn move_up(list: &mut RefList, settled: usize, place: u8)
    requires settled { settled < list.old.length }
    requires length { list.old.length ≤ 16 }
    ensures entries { take list.old.length list.new.entries ≡ moved_up list.old.length settled place (take list.old.length list.old.entries) }
    ensures beyond { drop list.old.length list.new.entries ≡ drop list.old.length list.old.entries }
    ensures length { list.new.length ≡ list.old.length }
{
    let active = list.length as usize;
    let moved = moved_up(&list.entries[..active], settled, place);
    list.entries[..active].copy_from_slice(&moved[..active]);
}

fn moved_up(entries: &[Option<u8>], settled: usize, place: u8) -> [Option<u8>; 17]
    requires settled { settled < length entries.now }
    requires length { length entries.now ≤ 16 }
    ensures { take (length entries.now) result ≡ moved_up (length entries.now) settled place entries.now }
{
    let mut moved = [None; 17];
    moved[..settled].copy_from_slice(&entries[..settled]);
    moved[settled] = Some(place);
    let mut next = settled + 1;
    for i in settled..entries.len() {
        if is_other(place, entries[i]) {
            moved[next] = entries[i];
            next += 1;
        }
    }
    moved
}

fn is_other(place: u8, entry: Option<u8>) -> bool
    ensures { result ≡ is_other place entry }
{
    match entry {
        Some(entry) => entry != place,
        None => true,
    }
}
