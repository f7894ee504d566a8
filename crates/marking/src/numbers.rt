// What frame numbers are counted with.
ghost use Rattle.std.specs.Prelude.{◌≡◌, ◌≤◌, ◌<◌, ◌^◌};
ghost use Rattle.marking.specs.Frames.{frame_num_wrap, most_frames};
ghost use Rattle.marking.specs.Operations.{named_pic_num};

/// MaxFrameNum, the current frame_num, and max_num_ref_frames.
#[derive(Clone, Copy, Debug)]
pub struct Numbers {
    pub max_frame_num: u32,
    pub frame_num: u32,
    pub max_num_ref_frames: u32,
}

/// FrameNumWrap of a frame_num (H.264, 8.2.4.1).
pub fn frame_num_wrap(numbers: Numbers, frame_num: u16) -> i64
    ensures { result ≡ frame_num_wrap numbers frame_num }
{
    if u32::from(frame_num) > numbers.frame_num {
        i64::from(frame_num) - i64::from(numbers.max_frame_num)
    } else {
        i64::from(frame_num)
    }
}

/// How many frames are marked at most.
pub fn most_frames(numbers: Numbers) -> usize
    ensures { result ≡ most_frames numbers }
{
    numbers.max_num_ref_frames.max(1) as usize
}

/// The PicNum that an operation names (picNumX of H.264, 8.2.5.4.1).
pub fn named_pic_num(numbers: Numbers, minus1: u32) -> i64
    ensures { result ≡ named_pic_num numbers minus1 }
{
    i64::from(numbers.frame_num) - (i64::from(minus1) + 1)
}
