// The objects of a task.
ghost use Rattle.std.specs.Prelude.{◌≡◌, ◌<◌, Some, None, replicate, slice_get, slice_set};
ghost use Rattle.stream_task.specs.Places.{IsPlace, index_of};

use cb_types::SizeMbs;

/// As many video surfaces are needed: one for each own number of a picture, and one for each picture that waits to be
/// shown.
pub const VIDEOS: usize = 34;

/// As many output surfaces are used in turn.
pub const OUTPUTS: usize = 4;

// A decoder, a mixer, and the surfaces.
const PLACES: usize = 2 + VIDEOS + OUTPUTS;

/// A place for an object that is made for pictures of a size.
#[derive(Clone, Copy, Debug, PartialEq, Eq)]
pub enum Place {
    Decoder,
    Mixer,
    Video(usize),
    Output(usize),
}

/// An object that was made for pictures of a size.
#[derive(Clone, Copy)]
pub struct Made {
    pub name: u32,
    pub size: SizeMbs,
}

/// What a task has made on the driver and not destroyed.
#[derive(Drop)]
pub struct Objects {
    pub device: Option<u32>,
    pub queue: Option<u32>,
    made: [Option<Made>; PLACES],
}

impl Place {
    fn index(self) -> usize
        requires { IsPlace self }
        ensures within { result < PLACES }
        ensures is { result ≡ index_of self }
    {
        match self {
            Place::Decoder => 0,
            Place::Mixer => 1,
            Place::Video(number) => 2 + number,
            Place::Output(number) => 2 + VIDEOS + number,
        }
    }
}

impl Objects {
    /// Nothing was made.
    pub fn none() -> Objects
        ensures device { result.device ≡ None }
        ensures queue { result.queue ≡ None }
        ensures made { result.made ≡ replicate 40 None }
    {
        Objects {
            device: None,
            queue: None,
            made: [None; PLACES],
        }
    }

    /// The object in a place.
    pub fn at(&self, place: Place) -> Option<Made>
        requires { IsPlace place }
        ensures { slice_get self.now.made (index_of place) ≡ Some result }
    {
        self.made[place.index()]
    }

    /// The object in the place was made, or destroyed.
    pub fn put(&mut self, place: Place, object: Option<Made>)
        requires { IsPlace place }
        ensures { self.new ≡ record (self.old) { made = slice_set self.old.made (index_of place) object } }
    {
        self.made[place.index()] = object;
    }
}
