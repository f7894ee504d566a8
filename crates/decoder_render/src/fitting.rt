// Whether a slice fits its picture. H.264, 7.4.1.2.4, 7.4.1.2.5 and 7.4.3.
ghost use Rattle.std.specs.Prelude.{◌≡◌, ◌≢◌, ◌⊎◌, ◌↔◌, IsTrue};
ghost use Rattle.cb_types.specs.Slices.{is_idr};
ghost use Rattle.slice_header.specs.AcceptedSlices.{IsAcceptedSlice, IsIdrSlice};

use cb_types::{Header, PictureInfo};

/// Whether a slice with this header fits the info of its picture, the header of the picture's first slice,
/// and the number of macroblocks that the slices before it cover.
pub fn is_accepted(info: &PictureInfo, first: &Header, covered: u32, header: &Header) -> bool
    ensures { IsTrue result ↔ IsAcceptedSlice info.now first.now covered header.now }
{
    header.frame_num == u32::from(info.frame_num)
        && has_reference_of(info, header)
        && is_slice(header)
        && fits_idr(header)
        && header.head.unit_type == first.head.unit_type
        && header.pps == first.pps
        && header.first_mb == covered
}

// Whether the slice's nal_ref_idc is that of a reference picture, or not, as the info says.
fn has_reference_of(info: &PictureInfo, header: &Header) -> bool
    ensures { IsTrue result ↔ (IsTrue info.now.is_reference ↔ (header.now.head.ref_idc ≢ 0)) }
{
    if info.is_reference {
        header.head.ref_idc != 0
    } else {
        header.head.ref_idc == 0
    }
}

// Whether the unit is a coded slice, of an IDR picture or not.
fn is_slice(header: &Header) -> bool
    ensures { IsTrue result ↔ ((header.now.head.unit_type ≡ 1) ⊎ (header.now.head.unit_type ≡ 5)) }
{
    header.head.unit_type == 1 || header.head.unit_type == 5
}

// Whether a slice of an IDR picture can have this header, if it is one.
fn fits_idr(header: &Header) -> bool
    ensures { IsTrue result ↔ (IsTrue (is_idr header.now) → IsIdrSlice header.now) }
{
    !header.is_idr() || is_idr_slice(header)
}

// Whether a slice of an IDR picture can have this header.
fn is_idr_slice(header: &Header) -> bool
    ensures { IsTrue result ↔ IsIdrSlice header.now }
{
    !header.is_p() && header.frame_num == 0 && header.head.ref_idc != 0
}
