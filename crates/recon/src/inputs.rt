// What the construction of a slice's macroblocks stands on.

use super::references::Refs;
use cb_types::{Header, Macroblock, PictureInfo, SizeMbs};
use ref_lists::RefList;

/// A slice, its reference list and its reference pictures.
#[derive(Clone, Copy)]
pub struct Inputs<'a> {
    pub info: &'a PictureInfo,
    pub header: &'a Header,
    pub list: &'a RefList,
    pub refs: &'a Refs,
    pub size: SizeMbs,
    pub macroblocks: &'a [Macroblock],
}
