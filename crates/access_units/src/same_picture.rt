// Where slices are of one picture. H.264, 7.4.1.2.4.
ghost use Rattle.std.specs.Prelude.{◌≡◌};
ghost use Rattle.access_units.specs.AccessUnits.{are_of_one_picture};

use cb_types::Header;

/// Whether two slices that follow one another are of one primary coded picture by their headers.
pub fn are_of_one_picture(a: &Header, b: &Header) -> bool
    ensures { result ≡ are_of_one_picture a.now b.now }
{
    a.frame_num == b.frame_num
        && a.pps == b.pps
        && (a.head.ref_idc == 0) == (b.head.ref_idc == 0)
        && a.is_idr() == b.is_idr()
        && (!a.is_idr() || a.idr_pic_id == b.idr_pic_id)
        && a.poc_lsb == b.poc_lsb
        && a.delta_bottom == b.delta_bottom
        && a.delta_poc == b.delta_poc
}
