// The names of references: their numbers outside, and handles of surfaces for the driver.
ghost use Rattle.std.specs.Prelude.{◌≡◌, All};
ghost use Rattle.picture_buffer.specs.Renaming.{HasNumber, renamed, renamed_entry};

use crate::buffer::NUMBERS;
use cb_types::{PictureInfo, Reference};

// The info whose references name the surfaces of their numbers.
pub(crate) fn renamed(surfaces: &[u32; NUMBERS], info: &PictureInfo) -> PictureInfo
    requires { All HasNumber info.now.references }
    ensures { result ≡ renamed surfaces.now info.now }
{
    let mut references = info.references;
    for place in 0..16 {
        references[place] = renamed_entry(surfaces, info.references[place]);
    }
    let mut info = *info;
    info.references = references;
    info
}

// The entry with the surface of its number, or as it is where it names none.
fn renamed_entry(surfaces: &[u32; NUMBERS], entry: Reference) -> Reference
    requires { HasNumber entry }
    ensures { result ≡ renamed_entry surfaces.now entry }
{
    if entry.is_unused() || entry.is_absent() {
        return entry;
    }
    Reference {
        surface: surfaces[entry.surface as usize],
        ..entry
    }
}
