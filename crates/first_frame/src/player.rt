// What a player makes on a device before it plays.
ghost use Rattle.std.specs.Prelude.{◌≡◌, IfOk};
ghost use Rattle.driver.specs.Passes.{IsOf};

use crate::answers::answer;
use crate::fault::Fault;
use cb_types::PictureInfo;
use driver::{Driver, Pass};
use driver_model::{CHROMA_420, CONSTRAINED_BASELINE, MAX_REFERENCES};
use mixer::B8G8R8A8;
use std::alloc::{AllocError, Global};
use std::sync::Wait;

// The sides of the stream's pictures in luma samples.
const WIDTH: u32 = 64;

const HEIGHT: u32 = 48;

// So many pictures are shown.
const PICTURES: u32 = 4;

/// The objects of a player: a video surface for each picture that may be referred to and for the one in hand, and an
/// output surface for each picture that is shown.
#[derive(Drop)]
pub struct Player {
    pub driver: Driver,
    pub alloc: Global,
    pub device: u32,
    pub decoder: u32,
    pub mixer: u32,
    pub queue: u32,
    pub videos: Vec<u32>,
    pub outputs: Vec<u32>,
}

impl Player {
    /// Makes a device, and a player's objects on it.
    pub fn new<R: Wait>(
        rt: &R,
        alloc: Global,
        driver: Driver,
        pass: Pass,
    ) -> Result<(Player, Pass), Fault>
        requires { IsOf pass driver }
        ensures pass { IfOk result (λ made. IsOf made.1 made.0.driver) }
    {
        let (pass, device) = answer(driver.device_create(rt, alloc, pass))?;
        let profile = CONSTRAINED_BASELINE;
        let most = MAX_REFERENCES;
        let (pass, decoder) = answer(driver.decoder_create(
            rt, alloc, pass, device, profile, WIDTH, HEIGHT, most,
        ))?;
        let (pass, mixer) = answer(driver.mixer_create(rt, alloc, pass, device, WIDTH, HEIGHT))?;
        let (pass, queue) = answer(driver.queue_create(rt, alloc, pass, device, 0))?;
        let (pass, videos) = videos(rt, alloc, &driver, pass, device)?;
        let (pass, outputs) = outputs(rt, alloc, &driver, pass, device)?;
        let player = Player {
            driver,
            alloc,
            device,
            decoder,
            mixer,
            queue,
            videos,
            outputs,
        };
        Ok((player, pass))
    }

    /// The surface of the picture with this number.
    pub fn video(&self, number: u32) -> Result<u32, Fault> {
        self.videos
            .get(number as usize)
            .copied()
            .ok_or(Fault::Stream)
    }

    /// A picture's information, whose references are named by their surfaces in the place of their numbers.
    pub fn named(&self, info: &PictureInfo) -> PictureInfo {
        let mut info = *info;
        for reference in info.references.iter_mut() {
            if let Some(video) = self.videos.get(reference.surface as usize) {
                reference.surface = *video;
            }
        }
        info
    }
}

fn videos<R: Wait>(
    rt: &R,
    alloc: Global,
    driver: &Driver,
    pass: Pass,
    device: u32,
) -> Result<(Pass, Vec<u32>), Fault>
    requires { IsOf pass driver.now }
    ensures { IfOk result (λ made. IsOf made.0 driver.now) }
{
    let mut pass = pass;
    let mut videos = Vec::new(alloc);
    for _ in 0..MAX_REFERENCES + 1 {
        let (back, video) = answer(driver.video_create(
            rt, alloc, pass, device, CHROMA_420, WIDTH, HEIGHT,
        ))?;
        videos.push(video).map_err(AllocError::from)?;
        pass = back;
    }
    Ok((pass, videos))
}

fn outputs<R: Wait>(
    rt: &R,
    alloc: Global,
    driver: &Driver,
    pass: Pass,
    device: u32,
) -> Result<(Pass, Vec<u32>), Fault>
    requires { IsOf pass driver.now }
    ensures { IfOk result (λ made. IsOf made.0 driver.now) }
{
    let mut pass = pass;
    let mut outputs = Vec::new(alloc);
    for _ in 0..PICTURES {
        let (back, output) = answer(driver.output_create(
            rt, alloc, pass, device, B8G8R8A8, WIDTH, HEIGHT,
        ))?;
        outputs.push(output).map_err(AllocError::from)?;
        pass = back;
    }
    Ok((pass, outputs))
}
