// What a render finds among the kept objects, and what is asked of it.
ghost use Rattle.std.specs.Prelude.{◌≡◌, ◌==◌};
ghost use Rattle.driver_objects.specs.References.{is_other_size_at, is_other_size_in, is_written_at, some_other_size, some_slot, some_written};

use crate::arguments::is_same_size;
use crate::content::{Content, Decoder};
use crate::jobs::{OutJob, writes};
use crate::object::Object;
use cb_types::SizeMbs;

/// What a render finds: its decoder, and which of the kept objects its target and its references are. An entry
/// for a reference that is unused or an absent frame has no surface.
#[derive(Clone, Copy)]
pub struct Rendering {
    pub decoder: Decoder,
    pub target: usize,
    pub references: [Option<usize>; 16],
}

/// Whether the target is one of the references.
pub fn is_reference(references: &[Option<usize>], target: usize) -> bool
    ensures { result ≡ some_slot (λ index. index == target) references.now }
{
    references.iter().any(|slot| match slot {
        Some(index) => *index == target,
        None => false,
    })
}

/// Whether the target or a reference hasn't this size.
pub fn some_other_size(kept: &[Object], on: &Rendering, size: SizeMbs) -> bool
    ensures { result ≡ some_other_size kept.now size on.now }
{
    is_other_size_at(kept, size, on.target) || some_is_other_size(kept, size, &on.references)
}

fn some_is_other_size(kept: &[Object], size: SizeMbs, references: &[Option<usize>]) -> bool
    ensures { result ≡ some_slot (is_other_size_at kept.now size) references.now }
{
    references.iter().any(|slot| match slot {
        Some(index) => is_other_size_at(kept, size, *index),
        None => false,
    })
}

fn is_other_size_at(kept: &[Object], size: SizeMbs, index: usize) -> bool
    ensures { result ≡ is_other_size_at kept.now size index }
{
    match kept.get(index) {
        Some(object) => is_other_size(&object.content, size),
        None => false,
    }
}

fn is_other_size(content: &Content, size: SizeMbs) -> bool
    ensures { result ≡ is_other_size_in size content.now }
{
    match content {
        Content::Video(surface) => !is_same_size(surface.size, size),
        _ => false,
    }
}

/// Whether a job writes the target or a reference.
pub fn some_written(kept: &[Object], jobs: &[OutJob], on: &Rendering) -> bool
    ensures { result ≡ some_written kept.now jobs.now on.now }
{
    is_written_at(kept, jobs, on.target) || some_is_written(kept, jobs, &on.references)
}

fn some_is_written(kept: &[Object], jobs: &[OutJob], references: &[Option<usize>]) -> bool
    ensures { result ≡ some_slot (is_written_at kept.now jobs.now) references.now }
{
    references.iter().any(|slot| match slot {
        Some(index) => is_written_at(kept, jobs, *index),
        None => false,
    })
}

fn is_written_at(kept: &[Object], jobs: &[OutJob], index: usize) -> bool
    ensures { result ≡ is_written_at kept.now jobs.now index }
{
    match kept.get(index) {
        Some(object) => writes(jobs, object.place),
        None => false,
    }
}
