// The samples of video surfaces come to have several owners.
ghost use Rattle.std.specs.Prelude.{◌≡◌, ℕ, List, IfOk};
ghost use Rattle.std.specs.Arc.{arc_value};
ghost use Rattle.driver_objects.specs.Alike.{SharesAt};
ghost use Rattle.driver_objects.specs.Contents.{HasSamples, HasVideo};
ghost use Rattle.driver_objects.specs.Kept.{IsGiven, kept_of, made_of};
ghost use Rattle.driver_objects.specs.Stored.{value_of};
ghost use Rattle.driver_core.specs.Shared.{Shares};

use crate::driver::Core;
use driver_objects::lend_samples;
use std::alloc::{AllocError, Global};
use std::sync::Arc;
use vd_plane::Picture;

impl Core {
    // Lends out the samples of a video surface. The core stands for what it stood for, also where there is no memory.
    pub(crate) fn share_samples(
        &mut self,
        alloc: Global,
        index: usize,
    ) -> Result<Arc<Picture>, AllocError>
        requires { HasVideo (kept_of self.old.objects) index }
        ensures shares { Shares self.old self.new }
        ensures samples { IfOk result (λ samples. HasSamples (kept_of self.old.objects) index (arc_value samples)) }
    {
        lend_samples(&mut self.objects, alloc, index)
    }
}
