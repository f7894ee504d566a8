//! Which records of calls fit one another, in definitions: those that a driver which does one call at a time could have
//! left, over its devices, output surfaces and queues alone; and where bytes are no such records.
#![tactic(auto)]

mod laws;

pub use laws::{bytes_break_once, records_lead_one_way};
