// The pixels and samples of surfaces come to have several owners.
ghost use Rattle.std.specs.Prelude.{◌≡◌, ℕ, ◌<◌, List, length, IfOk};
ghost use Rattle.std.specs.Arc.{arc_value};
ghost use Rattle.driver_objects.specs.Alike.{AreAlike, SharesAt};
ghost use Rattle.driver_objects.specs.Contents.{HasContent, HasOutput, HasSamples, HasVideo};
ghost use Rattle.driver_objects.specs.Kept.{IsGiven, kept_of, made_of};
ghost use Rattle.driver_objects.specs.Stored.{value_of};

use crate::content::{Content, Device, OutputSurface, VideoSurface};
use crate::objects::Objects;
use crate::stored::Stored;
use std::alloc::{AllocError, Global};
use std::sync::Arc;
use vd_plane::Picture;

// Lends out the pixels of an output surface. They stay as they are, also where there is no memory.
pub(crate) fn lend_pixels(
    objects: &mut Objects,
    alloc: Global,
    index: usize,
) -> Result<Arc<Vec<u8>>, AllocError>
    requires { HasOutput (kept_of objects.old) index }
    ensures alike { AreAlike (kept_of objects.new) (kept_of objects.old) }
    ensures within { index < length (kept_of objects.new) }
    ensures made { made_of objects.new ≡ made_of objects.old }
    ensures given { (names : List ℕ) → IsGiven objects.old names → IsGiven objects.new names }
    ensures lent { IfOk result (λ pixels. (surface : OutputSurface) → HasContent (kept_of objects.old) index (Content.Output surface)
        → arc_value pixels ≡ value_of surface.pixels) }
{
    match objects.replace(index, nothing()) {
        Content::Output(of) => {
            let (pixels, lent) = share(alloc, of.pixels);
            let surface = OutputSurface {
                format: of.format,
                size: of.size,
                pixels,
                last_flip: of.last_flip,
                holder: of.holder,
            };
            objects.replace(index, Content::Output(surface));
            lent
        }
        _ => unreachable!(),
    }
}

/// Lends out the samples of a video surface. They stay as they are, also where there is no memory.
pub fn lend_samples(
    objects: &mut Objects,
    alloc: Global,
    index: usize,
) -> Result<Arc<Picture>, AllocError>
    requires { HasVideo (kept_of objects.old) index }
    ensures shares { SharesAt (kept_of objects.old) (kept_of objects.new) index }
    ensures made { made_of objects.new ≡ made_of objects.old }
    ensures given { (names : List ℕ) → IsGiven objects.old names → IsGiven objects.new names }
    ensures samples { IfOk result (λ samples. HasSamples (kept_of objects.old) index (arc_value samples)) }
{
    match objects.replace(index, nothing()) {
        Content::Video(of) => {
            let size = of.size;
            let (samples, shared) = share(alloc, of.samples);
            objects.replace(index, Content::Video(VideoSurface { size, samples }));
            shared
        }
        _ => unreachable!(),
    }
}

// The same value, and a further owner of it.
fn share<T: Drop>(alloc: Global, value: Stored<T>) -> (Stored<T>, Result<Arc<T>, AllocError>)
    ensures same { value_of result.0 ≡ value_of value }
    ensures shared { IfOk result.1 (λ shared. arc_value shared ≡ value_of value) }
{
    match value.share(alloc) {
        Ok(shared) => {
            let further: Result<Arc<T>, AllocError> = shared.clone();
            (Stored::Shared(shared), further)
        }
        Err(value) => (value, Err(AllocError)),
    }
}

// Stands in for content that is taken out for a moment.
pub(crate) fn nothing() -> Content {
    Content::Device(Device {
        time: 0,
        is_preempted: false,
    })
}
