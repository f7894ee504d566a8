// The program's state.
ghost use Rattle.plain_driver.specs.Numbered.{IsNumbered};

use crate::objects::{PlainNote, PlainObject};

/// A driver that does one thing at a time, in plain lists: each object that was ever made, in order, a note
/// for each job that runs, and how many items have happened.
#[derive(Drop)]
pub struct Plain {
    pub objects: Vec<PlainObject>,
    pub notes: Vec<PlainNote>,
    pub items: u64,
    pub ghost numbered: { IsNumbered objects.items },
}
