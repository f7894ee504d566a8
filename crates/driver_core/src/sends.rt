// What one thread may hand to another.
use crate::driver::Core;
use driver_jobs::{CoreMix, CoreMixDone, CoreRender, CoreRenderDone};
use driver_objects::Flips;

// A driver can be kept under a lock for callers on several threads, and a job be run on another thread than the
// one that began it.
trait HandedOver: Send {}

impl HandedOver for Core {}

impl HandedOver for CoreRender {}

impl HandedOver for CoreRenderDone {}

impl HandedOver for CoreMix {}

impl HandedOver for CoreMixDone {}

impl HandedOver for Flips {}
