// Why a table took no value.

/// Why a value was not taken. It comes back.
#[derive(Debug, Drop)]
pub enum InsertFault<T> {
    /// No more names can be given: so many are live, and so many were given since the table was made.
    Full { value: T, live: u32, given: u64 },
    /// There was no memory.
    OutOfMemory(T),
}
