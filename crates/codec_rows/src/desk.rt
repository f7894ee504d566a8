// What lines change, and the calls that they name.
use crate::line::Line;
use crate::told::Text;
use crate::{
    bits, meeting, pictures, planes, predictions, renders, sets, slices, tables, transforms, types,
    units,
};
use std::alloc::{AllocError, Global};
use std::thread::Threads;
use vd_plane::{Picture, Plane};

/// The plane and the picture that lines change.
#[derive(Drop)]
pub struct Desk {
    plane: Plane,
    picture: Picture,
}

impl Desk {
    pub fn new(alloc: Global) -> Result<Desk, AllocError> {
        Ok(Desk {
            plane: Plane::new(alloc, 1, 1, 0)?,
            picture: Picture::new(alloc, 1, 1)?,
        })
    }

    /// Makes a call, if the line is one.
    pub fn answer<R: Threads + Sync>(
        &mut self,
        rt: &R,
        alloc: Global,
        line: Line<'_>,
    ) -> Option<Text> {
        if let Some(answer) = syntax_answer(alloc, line) {
            return Some(answer);
        }
        if let Some(answer) = transforms::answer(alloc, line) {
            return Some(answer);
        }
        if let Some(answer) = predictions::answer(alloc, line) {
            return Some(answer);
        }
        if let Some(answer) = planes::answer(alloc, &mut self.plane, line) {
            return Some(answer);
        }
        if let Some(answer) = pictures::answer(alloc, &mut self.picture, line) {
            return Some(answer);
        }
        if let Some(answer) = renders::answer(rt, alloc, &mut self.picture, line) {
            return Some(answer);
        }
        meeting::answer(rt, alloc, line)
    }
}

fn syntax_answer(alloc: Global, line: Line<'_>) -> Option<Text> {
    if let Some(answer) = tables::answer(alloc, line) {
        return Some(answer);
    }
    if let Some(answer) = bits::answer(alloc, line) {
        return Some(answer);
    }
    if let Some(answer) = units::answer(alloc, line) {
        return Some(answer);
    }
    if let Some(answer) = types::answer(alloc, line) {
        return Some(answer);
    }
    if let Some(answer) = slices::answer(alloc, line) {
        return Some(answer);
    }
    sets::answer(alloc, line)
}
