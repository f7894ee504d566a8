// What follows from the definition of the filter.
ghost use Rattle.deblock.specs.Laws.{FarChromaStays, FarLumaStays, UnfilteredPlanesStay};

/// Planes stay as they are where disable_deblocking_filter_idc is 1 for each macroblock (H.264, 7.4.3).
pub fn unfiltered_planes_stay()
    ensures { UnfilteredPlanesStay }
{}

/// A luma sample that is farther than three samples from every edge that is filtered stays as it is
/// (H.264, 8.7.2).
pub fn far_luma_stays()
    ensures { FarLumaStays }
{}

/// A chroma sample that is farther than one sample from every edge that is filtered stays as it is
/// (H.264, 8.7.2).
pub fn far_chroma_stays()
    ensures { FarChromaStays }
{}
