// The reference list of a P slice (H.264, 8.2.4).
ghost use Rattle.std.specs.Prelude.{◌≡◌, ◌≤◌, ◌<◌, ◌-◌, All, IfSome, MatchOption, None, Some, drop, replicate, take};
ghost use Rattle.cb_types.specs.AcceptedInfo.{IsAcceptedBySome, max_frame_num};
ghost use Rattle.cb_types.specs.Slices.{active_entries};
ghost use Rattle.ref_lists.specs.ReferenceList.{IsCounted, reference_list};

use super::edits::{counted_to, find, move_up};
use super::order::initial_list;
use cb_types::{Header, PictureInfo};

/// A reference list (RefPicList0 of H.264, 8.2.4) of `length` entries: places in the picture info's
/// references, None where nothing is there. Entries beyond the length are None.
#[derive(Clone, Copy, Debug, PartialEq, Eq)]
pub struct RefList {
    pub length: u32,
    pub entries: [Option<u8>; 16],
}

/// The reference list of a P slice, None where an edit of its header names no reference.
pub fn list_for(info: &PictureInfo, header: &Header) -> Option<RefList>
    requires info { IsAcceptedBySome info.now }
    requires frame_num { header.now.frame_num < max_frame_num info.now }
    requires active { active_entries info.now header.now ≤ 16 }
    requires edits { header.now.edit_count ≤ active_entries info.now header.now }
    requires differences { All (IsCounted (max_frame_num info.now)) (take header.now.edit_count header.now.edits) }
    ensures list { MatchOption result (reference_list info.now header.now ≡ None) (λ list. reference_list info.now header.now ≡ Some (take list.length list.entries)) }
    ensures length { IfSome result (λ list. list.length ≡ active_entries info.now header.now) }
    ensures beyond { IfSome result (λ list. drop list.length list.entries ≡ replicate (16 - list.length) None) }
{
    let mut list = RefList {
        length: header.active_entries(info),
        entries: initial_list(info, header),
    };
    let mut predicted = header.frame_num;
    for settled in 0..header.edit_count as usize {
        let edit = header.edits[settled];
        predicted = counted_to(info, header, predicted, edit);
        let place = find(info, header, predicted, edit)?;
        move_up(&mut list, settled, place);
    }
    Some(list)
}
