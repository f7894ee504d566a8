// Which fields of a picture info a decoder takes.
ghost use Rattle.std.specs.Prelude.{◌≡◌, ◌^◌, ◌≤◌, ◌↔◌, ◌&&◌, ◌==◌, nat_lt, MatchOption};
ghost use Rattle.std.specs.List.{list_all};
ghost use Rattle.cb_types.specs.AcceptedInfo.{accepted_fields, are_all_apart, are_apart, is_flat, is_reference_accepted, max_frame_num, IsAccepted, IsFirstRefused};

use super::picture_info::{PictureInfo, Reference, ScalingList4x4};

/// The first field of a picture info that a decoder of this profile with so many references doesn't take,
/// None where it takes them all.
///
/// Fields have these numbers: 0 the number of references, 1 field_pic_flag, 2 bottom_field_flag, 3
/// num_ref_frames, 4 mb_adaptive_frame_field_flag, 5 weighted_pred_flag, 6 weighted_bipred_idc, 7
/// frame_mbs_only_flag, 8 transform_8x8_mode_flag, 9 entropy_coding_mode_flag, 10
/// redundant_pic_cnt_present_flag, 11 chroma_qp_index_offset, 12 pic_init_qp_minus26, 13
/// num_ref_idx_l0_active_minus1, 14 log2_max_frame_num_minus4, 15 pic_order_cnt_type, 16
/// log2_max_pic_order_cnt_lsb_minus4, 17 frame_num, 18 scaling_lists_4x4, 19 references.
pub fn first_refused_field(profile: u32, max_references: u32, info: &PictureInfo) -> Option<u32>
    ensures { MatchOption result (IsAccepted profile max_references info.now) (IsFirstRefused profile max_references info.now) }
{
    let accepted = accepted_fields(profile, max_references, info);
    for (field, is_accepted) in accepted.iter().enumerate() {
        if !*is_accepted {
            return Some(field as u32);
        }
    }
    None
}

// By its number, whether each field is accepted.
fn accepted_fields(profile: u32, max_references: u32, info: &PictureInfo) -> [bool; 20]
    ensures { result ≡ accepted_fields profile max_references info.now }
{
    [
        max_references <= 16,
        !info.field_pic_flag,
        !info.bottom_field_flag,
        u32::from(info.num_ref_frames) <= max_references,
        !info.mb_adaptive_frame_field_flag,
        !info.weighted_pred_flag || profile == 1,
        info.weighted_bipred_idc == 0,
        info.frame_mbs_only_flag,
        !info.transform_8x8_mode_flag,
        !info.entropy_coding_mode_flag,
        !info.redundant_pic_cnt_present_flag,
        info.chroma_qp_index_offset >= -12 && info.chroma_qp_index_offset <= 12,
        info.pic_init_qp_minus26 >= -26 && info.pic_init_qp_minus26 <= 25,
        info.num_ref_idx_l0_active_minus1 <= 15,
        info.log2_max_frame_num_minus4 <= 12,
        info.pic_order_cnt_type <= 2,
        info.log2_max_pic_order_cnt_lsb_minus4 <= 12,
        is_frame_num(info.frame_num, info),
        are_scaling_lists_flat(&info.scaling_lists_4x4),
        are_references_accepted(info),
    ]
}

// Whether the number is below MaxFrameNum.
fn is_frame_num(number: u16, info: &PictureInfo) -> bool
    ensures { result ≡ nat_lt number (max_frame_num info.now) }
{
    let bits = info.log2_max_frame_num_minus4;
    bits >= 12 || u32::from(number) < 1 << (bits + 4)
}

// Whether each weight is 16, as where no list is sent (Flat_4x4_16).
fn are_scaling_lists_flat(lists: &[ScalingList4x4; 6]) -> bool
    ensures { result ≡ list_all is_flat lists.now }
{
    lists.iter().all(|list| is_flat(list))
}

fn is_flat(list: &ScalingList4x4) -> bool
    ensures { result ≡ is_flat list.now }
{
    list.0.iter().all(|weight| *weight == 16)
}

fn are_references_accepted(info: &PictureInfo) -> bool
    ensures { result ≡ (list_all (is_reference_accepted (max_frame_num info.now)) info.now.references && are_all_apart info.now.references) }
{
    are_frames_whole(info) && are_all_apart(&info.references)
}

fn are_frames_whole(info: &PictureInfo) -> bool
    ensures { result ≡ list_all (is_reference_accepted (max_frame_num info.now)) info.now.references }
{
    info.references
        .iter()
        .all(|entry| is_reference_accepted(entry, info))
}

fn is_reference_accepted(entry: &Reference, info: &PictureInfo) -> bool
    ensures { result ≡ is_reference_accepted (max_frame_num info.now) entry.now }
{
    if entry.is_unused() {
        return true;
    }
    let is_index = if entry.is_long_term {
        entry.frame_idx <= 15 && !entry.is_absent()
    } else {
        is_frame_num(entry.frame_idx, info)
    };
    entry.top_is_reference && entry.bottom_is_reference && is_index
}

fn are_all_apart(entries: &[Reference]) -> bool
    ensures { result ≡ are_all_apart entries.now }
{
    match entries.split_first() {
        None => true,
        Some((entry, later)) => is_apart_from_all(entry, later) && are_all_apart(later),
    }
}

fn is_apart_from_all(entry: &Reference, later: &[Reference]) -> bool
    ensures { result ≡ list_all (are_apart entry.now) later.now }
{
    later.iter().all(|other| are_apart(entry, other))
}

fn are_apart(entry: &Reference, other: &Reference) -> bool
    ensures { result ≡ are_apart entry.now other.now }
{
    if entry.is_unused() || other.is_unused() {
        return true;
    }
    let same_index = entry.is_long_term == other.is_long_term && entry.frame_idx == other.frame_idx;
    !same_index && (entry.is_absent() || entry.surface != other.surface)
}
