//! What a player knows of the driver that it plays through: of pictures that more will follow, of devices beside each
//! other, and of displays and ticks.
#![tactic(auto)]

mod laws;

pub use laws::{
    callers_add_up, calls_stay_on_one_device, creates_find_room, displays_are_flipped,
    flips_are_in_their_windows, flips_are_of_their_parts, ordered_flips_are_written,
    shown_pictures_settle, ticks_of_pictures_are_found,
};
