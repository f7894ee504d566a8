// Pixels, and pictures with given bytes.
ghost use Rattle.render_outcomes.specs.Bytes.{MixedBytesExist, PackedPicturesExist};

/// Each picture has its pixels by each matrix, row by row, in each format.
pub fn mixed_bytes_exist()
    ensures { MixedBytesExist }
{}

/// As many bytes as a picture has are those of a picture of its size, in each format.
pub fn packed_pictures_exist()
    ensures { PackedPicturesExist }
{}
