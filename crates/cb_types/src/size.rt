// The size of a picture in macroblocks.
ghost use Rattle.std.specs.Prelude.{◌≡◌, ◌^◌, ◌<◌, ◌↔◌, IsTrue};

/// The most macroblocks across, and the most down, that this decoder takes: 4,096 luma samples.
pub const MAX_SIDE_MBS: u32 = 256;

/// The most macroblocks in a picture that this decoder takes.
pub const MAX_PICTURE_MBS: u32 = 36864;

/// The size of a picture in macroblocks, `width` of them across and `height` of them down.
///
/// A macroblock is 16 luma samples wide and high, and 8 samples of each chroma array
/// (H.264, 6.2, Table 6-1: 4:2:0).
#[derive(Clone, Copy, Debug, PartialEq, Eq)]
pub struct SizeMbs {
    pub width: u32,
    pub height: u32,
}

impl SizeMbs {
    ghost use Rattle.cb_types.specs.SizeMbs.{IsWithinLimits, macroblocks, luma_width, luma_height, chroma_width, chroma_height};

    /// Whether this decoder takes pictures of this size.
    pub fn is_within_limits(self) -> bool
        ensures { IsTrue result ↔ IsWithinLimits self }
    {
        self.width >= 1
            && self.width <= MAX_SIDE_MBS
            && self.height >= 1
            && self.height <= MAX_SIDE_MBS
            && self.width * self.height <= MAX_PICTURE_MBS
    }

    /// The number of macroblocks (PicSizeInMbs).
    pub fn macroblocks(self) -> u32
        requires { macroblocks self < 2 ^ 32 }
        ensures { result ≡ macroblocks self }
    {
        self.width * self.height
    }

    /// The luma samples in a row (PicWidthInSamplesL).
    pub fn luma_width(self) -> u32
        requires { luma_width self < 2 ^ 32 }
        ensures { result ≡ luma_width self }
    {
        16 * self.width
    }

    /// The rows of luma samples (PicHeightInSamplesL).
    pub fn luma_height(self) -> u32
        requires { luma_height self < 2 ^ 32 }
        ensures { result ≡ luma_height self }
    {
        16 * self.height
    }

    /// The samples of one chroma array in a row (PicWidthInSamplesC).
    pub fn chroma_width(self) -> u32
        requires { chroma_width self < 2 ^ 32 }
        ensures { result ≡ chroma_width self }
    {
        8 * self.width
    }

    /// The rows of samples of one chroma array (PicHeightInSamplesC).
    pub fn chroma_height(self) -> u32
        requires { chroma_height self < 2 ^ 32 }
        ensures { result ≡ chroma_height self }
    {
        8 * self.height
    }
}
