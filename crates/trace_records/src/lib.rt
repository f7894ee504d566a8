//! Records of calls that were made on a driver, as numbers and as bytes: which callers keep, put together and
//! hand to others. Only the calls about presentation on one clock are recorded, as each was answered.
#![tactic(auto)]

mod bytes;
mod laws;
mod record;
mod words;

pub use bytes::{RECORD_BYTES, read_record, write_by_place};
pub use laws::{records_have_their_bytes, traces_go_on};
pub use record::{Event, Record};
