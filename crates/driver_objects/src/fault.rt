// Why an object wasn't added.

/// Why an object wasn't added.
#[derive(Clone, Copy, Debug, PartialEq, Eq)]
pub enum AddFault {
    /// No more names can be given: so many objects live, and so many were made.
    Full { live: u32, given: u64 },
    /// There was no memory.
    OutOfMemory,
}
