//! The driver by hand: each line of standard input is a call, which is made on `driver_core` and on the slow
//! `plain_driver` at once, and the answer of both is a line of standard output. Where they differ the line says so, with
//! both answers: bytes, samples and pixels are compared as a whole. A line that is no call is written as it is. A name
//! is a number, as the core answered it; the slow driver's own name of the object is looked up.
//!
//!     device                                       a new device's name
//!     destroy_device D, preempt D                  done
//!     advance D TIME                               each flip
//!     video D CHROMA WIDTH HEIGHT                  a video surface's name
//!     parameters V                                 its chroma type and its sides
//!     get_video V FORMAT LENGTH                    its bytes: how many, the first four, and whether these repeat
//!     put_video V FORMAT LENGTH BYTE               done
//!     destroy_video V                              done
//!     output D FORMAT WIDTH HEIGHT                 an output surface's name
//!     get_output O LENGTH                          its bytes
//!     put_output O LENGTH BYTE                     done
//!     destroy_output O                             done
//!     query D PROFILE                              what a decoder of the profile takes
//!     decoder D PROFILE WIDTH HEIGHT REFERENCES    a decoder's name
//!     destroy_decoder C                            done
//!     mixer D WIDTH HEIGHT                         a mixer's name
//!     mixers D COUNT                               so many mixers of 16 by 16: the last answer
//!     grey M                                       the mixer copies Y to red, green and blue
//!     destroy_mixer M                              done
//!     mix CALLER M STRUCTURE V O                   begun
//!     render CALLER C V NUMBER BYTE                begun: the samples are this byte, from 1 to 255. A number up to 4 has
//!                                                  a fault of its own (pictures.rt), a greater one is a reference's name
//!     decode C V KIND SLICES REFERENCE             begun, for the caller 0: the picture that the lines before have told,
//!                                                  an IDR picture (0), the next one (1), weighted (2), or without a
//!                                                  reference (3), which is said to have so many slices
//!     slices HEX                                   bytes of that picture's slice units: how many it has now
//!     zeros COUNT                                  so many zeros of it
//!     comes UNITS OUTCOME NUMBER LUMA CHROMA       so many units it has, and what they come to: a picture (0) of these
//!                                                  samples, the unit of this number at fault (1), or so many
//!                                                  macroblocks missing (2)
//!     end CALLER PLACE                             the job that was begun at this place of the history is run and ended:
//!                                                  its answer
//!     flips                                        each flip of the last tick, as it stands now
//!     queue D WINDOW                               a queue's name
//!     queues D COUNT                               so many queues: the last answer
//!     destroy_queue Q                              done
//!     display Q O TIME                             done
//!     displays Q O TIME COUNT                      so many displays: the last answer
//!     status Q O                                   visible, queued or idle, and the time
//!     block Q O                                    the time
//!     time Q                                       the clock's time
//!     promise Q TIME                               done
//!     poll WISH OBJECT TIME, wait WISH OBJECT TIME the place of the wish that holds. A wish is 0 for an idle output
//!                                                  surface, 1 for a video surface at home, 2 for an output
//!                                                  surface at home, 3 for a promise past the time
//!     poll_both WISH OBJECT WISH OBJECT            the same of two wishes
//!     flood D O TIME                               64 queues with 64 displays each: the answer to a further queue
//!     destroy_queues Q COUNT                       every second queue from this one on: the last answer
//!     kept                                         how many surfaces and entries are kept
//!     items                                        how many items the history has: each answered call is one
//!     renew COUNT                                  on a core of its own, so many mixers, one after the other: the last name
//!     script STREAMS TEXT                          the lines of a display's script, or the line at fault
#![tactic(auto)]

mod aside;
mod desk;
mod devices;
mod flips;
mod jobs;
mod line;
mod names;
mod pictures;
mod queues;
mod scripts;
mod surfaces;
mod told;
mod worked;

use desk::Desk;
use line::Line;
use std::io;

fn main(rt: HostRuntime) -> io::Result<()> {
    let mut desk = Desk::new(rt.alloc())?;
    for text in rt.lines(rt.alloc()) {
        let text = text?;
        match desk.call(rt.alloc(), Line::read(text.as_str()))? {
            Some(answer) => println!(rt; "{answer}")?,
            None => println!(rt; "{text}")?,
        }
    }
    Ok(())
}
