// An object that is kept.
use crate::content::Content;

/// An object that the driver keeps.
#[derive(Drop)]
pub struct Object {
    /// So many objects were made before it.
    pub place: u64,
    /// No other object has this name or ever had it. Its highest three bits say the kind.
    pub name: u32,
    /// The place of its device, which of a device is its own.
    pub device: u64,
    /// It wasn't destroyed.
    pub is_live: bool,
    pub content: Content,
}
