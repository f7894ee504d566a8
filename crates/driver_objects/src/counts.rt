// How many of the kept objects are of a kind.
ghost use Rattle.std.specs.Prelude.{◌≡◌, ◌&&◌, count_by};
ghost use Rattle.driver_objects.specs.Counted.{has_picture};
ghost use Rattle.driver_objects.specs.Kinds.{is_device};

use crate::content::Content;
use crate::object::Object;

/// How many of them are live devices.
pub fn count_devices(kept: &[Object]) -> usize
    ensures { result ≡ count_by (λ object. object.is_live && is_device object.content) kept.now }
{
    let mut devices = 0;
    for object in kept {
        if object.is_live && matches!(object.content, Content::Device(_)) {
            devices += 1;
        }
    }
    devices
}

/// How many of them are video or output surfaces.
pub fn count_surfaces(kept: &[Object]) -> usize
    ensures { result ≡ count_by (λ object. has_picture object.content) kept.now }
{
    let mut surfaces = 0;
    for object in kept {
        if matches!(object.content, Content::Video(_) | Content::Output(_)) {
            surfaces += 1;
        }
    }
    surfaces
}
