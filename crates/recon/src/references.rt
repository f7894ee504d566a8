// The pictures that a slice refers to.
ghost use Rattle.std.specs.Prelude.{◌≡◌, ◌<◌, false, true, MatchOption, Some};
ghost use Rattle.recon.specs.References.{ArePlaces, is_lacking, picture_of, pictures_of};

use cb_types::PictureInfo;
use ref_lists::RefList;
use std::sync::Arc;
use vd_plane::Picture;

/// The reference pictures by their places in the picture info, None where an entry names no surface or its
/// picture isn't given.
#[derive(Drop)]
pub struct Refs {
    pub pictures: [Option<Arc<Picture>>; 16],
}

/// The picture of an entry of the reference list, None where nothing is there, the frame is absent or its
/// picture isn't given.
pub fn picture_of<'a>(
    info: &PictureInfo,
    list: &RefList,
    refs: &'a Refs,
    reference: u32,
) -> Option<&'a Picture>
    requires entry { reference < 16 }
    requires places { ArePlaces info.now list.now.entries }
    ensures { MatchOption result (is_lacking info.now list.now.entries (pictures_of refs.now) reference ≡ true) (λ picture.
        (is_lacking info.now list.now.entries (pictures_of refs.now) reference ≡ false) × (picture_of list.now.entries (pictures_of refs.now) reference ≡ Some picture.now)) }
{
    let place = list.entries[reference as usize]?;
    if info.references[place as usize].is_absent() {
        return None;
    }
    match &refs.pictures[place as usize] {
        Some(picture) => Some(picture),
        None => None,
    }
}
