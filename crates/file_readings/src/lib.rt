//! What a file is read as exists: laws that give the values.
#![tactic(auto)]

mod laws;

pub use laws::{
    files_have_readings, pictures_are_decided, readings_are_functions, units_tell_something,
};
