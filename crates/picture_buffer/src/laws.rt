// What is known of pictures by the handles of their surfaces.
ghost use Rattle.picture_buffer.specs.Handles.{ItemsLeaveAwake, ItemsLeaveDecoders, ItemsLeavePictures, ItemsLeaveSurfaces, RendersFindPictures, RendersFindReferences, StepsLeavePictures};

/// Where each number's surface has the picture that was last decoded with the number, a render of the next picture
/// whose references are given by the surfaces' handles comes to what its units come to with the pictures by their
/// numbers; and then its own number's surface has it. Each call that doesn't touch the surfaces, their decoder or their
/// device keeps what is known of them, and so does the end of each job.
pub fn pictures_are_found_by_handles()
    ensures found { RendersFindPictures }
    ensures kept { StepsLeavePictures }
    ensures items { ItemsLeavePictures }
{}

/// Where those numbers alone have surfaces that an info names, a render of it into another surface comes to what its
/// units come to with the pictures by their numbers; then that surface has a whole picture, and each other one keeps
/// its own.
pub fn references_are_found_by_handles()
    ensures { RendersFindReferences }
{}

/// A surface and its picture are kept by each item that doesn't destroy it or its device, nor gives it other samples;
/// a decoder by each that doesn't destroy it or its device; and a device that isn't preempted by each that doesn't
/// preempt it.
pub fn surfaces_are_kept()
    ensures surfaces { ItemsLeaveSurfaces }
    ensures decoders { ItemsLeaveDecoders }
    ensures awake { ItemsLeaveAwake }
{}
