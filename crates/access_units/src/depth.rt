// How many pictures may wait for their turn to come out. H.264, A.3.1 and Table A-1, C.4.5.3.
ghost use Rattle.std.specs.Prelude.{◌≡◌, ◌≤◌};
ghost use Rattle.access_units.specs.Depth.{depth_of, max_dpb_mbs};
ghost use Rattle.param_sets.specs.Accepted.{IsAcceptedSps};

use param_sets::Sps;

/// How many pictures of a period may wait for their turn to come out.
pub fn depth_of(sps: &Sps) -> u32
    requires { IsAcceptedSps sps.now }
    ensures value { result ≡ depth_of sps.now }
    ensures most { result ≤ 16 }
{
    let frames = max_dpb_mbs(sps) / sps.size().macroblocks();
    sps.max_num_ref_frames.max(frames.min(16))
}

// MaxDpbMbs of the set's level.
fn max_dpb_mbs(sps: &Sps) -> u32
    requires { IsAcceptedSps sps.now }
    ensures { result ≡ max_dpb_mbs sps.now }
{
    match sps.level_idc {
        10 => 396,
        11 if sps.constraints.0 / 16 % 2 == 1 => 396,
        11 => 900,
        12 | 13 | 20 => 2376,
        21 => 4752,
        22 | 30 => 8100,
        31 => 18000,
        32 => 20480,
        40 | 41 => 32768,
        42 => 34816,
        50 => 110400,
        60..=62 => 696320,
        _ => 184320,
    }
}
