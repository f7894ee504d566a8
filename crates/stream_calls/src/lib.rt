//! What the calls of one stream are in the history of a driver that is shared, in definitions: they stay on one device
//! (specs/OneDevice.antt), and while no strangers call there (specs/Strangers.antt), they render the pictures of the
//! stream's file (specs/Renders.antt), display those that a script of ticks shows (specs/Displays.antt), and promise
//! no time too early (specs/Promises.antt). All of it is in specs/StreamCalls.antt.
#![tactic(auto)]

mod device_laws;
mod file_laws;
mod laws;
mod others_laws;

pub use device_laws::{
    live_objects_are_held, names_are_held, names_are_worked, others_keep_one_device,
    own_calls_keep_one_device, streams_make_little,
};
pub use file_laws::{
    accepted_pictures_are_pushed, calls_gain_one_item, displays_go_on, mixes_go_on,
    pictures_come_out_first, playing_goes_on, playing_stays_of_the_file, promises_go_on,
    renders_go_on, what_is_played_follows, what_is_shown_settles,
};
pub use laws::{calls_count, feeding_keeps_stream_calls, no_calls_are_a_streams, strangers_call};
pub use others_laws::{
    objects_are_kept, others_go_on_without_strangers, others_leave_what_is_the_streams,
};
