//! Names for the driver's objects.
//!
//! A [`HandleTable`] gives each value a name, a `u32` with the value's kind in it, and finds the value
//! again by kind and name. No name is ever given twice, so a handle that a caller kept too long finds
//! nothing.
#![tactic(auto)]

mod fault;
mod name;
mod slot;
mod table;

pub use fault::InsertFault;
pub use table::HandleTable;
