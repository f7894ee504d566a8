//! The codec by hand: each line of standard input is a call of one of its layers, and is written to standard output
//! with its answer behind an arrow. A line that is no call is written as it is. Bytes are in hex, `-` for none; what
//! isn't found, isn't read or is out of range is `none`.
//!
//!     token TABLE TOTAL ONES                       the code of coeff_token
//!     zeros TOTAL ZEROS, dc_zeros TOTAL ZEROS      those of total_zeros
//!     run LEFT RUN                                 that of run_before
//!     find_token TABLE BITS, find_zeros TOTAL BITS, find_dc_zeros TOTAL BITS, find_run LEFT BITS
//!                                                  what the bits begin with, if zeros follow, and its code's length
//!     pattern CODE KIND, pattern_code PATTERN KIND coded_block_pattern by codeNum, and back: KIND is intra or inter
//!     level_scale REM PLACE, chroma_qp_of INDEX, alpha INDEX, beta INDEX, tc0 INDEX STRENGTH
//!     write ELEMENTS                               the bytes of u:N:V, ue:V, se:V, te:GREATEST:V, one behind the other
//!                                                  with commas, and of trailing bits
//!     read ELEMENTS BYTES                          what is read: u:N, ue, se, te:GREATEST, and what is seen ahead:
//!                                                  more_data, ends_here, peek:N, holds:N, fork_ue; and skip:N
//!     escape BYTES, unescape BYTES                 a unit's bytes, and its payload
//!     block NC MOST BYTES, block_into, block_back  a block's levels, the same over sevens, and the bytes of what is read
//!     join BYTES BYTES BYTES                       a byte stream of three units
//!     units_by_bytes BYTES, units_by_pieces BYTES  where its units lie
//!     short_texts                                  how many short texts are read otherwise than as the format is written
//!     reference SURFACE, max_frame_num INFO, refused_field PROFILE REFERENCES INFO, slice TYPE UNIT_TYPE ACTIVE INFO
//!     size WIDTH HEIGHT, beside WIDTH HEIGHT MACROBLOCK, block_place BLOCK
//!                                                  what the shared types tell. INFO is how the information differs from
//!                                                  that on an IDR picture, as frame_num=1,references=7:0
//!     header INFO REF_IDC UNIT_TYPE BYTES, slice_data INFO REF_IDC UNIT_TYPE BYTES, header_back, slice_data_back
//!                                                  what is read of a slice, and the bytes of what is read
//!     list INFO FRAME_NUM MINUS1                   a reference list, edited once if MINUS1 is a number
//!     sps BYTES, sps_size BYTES, sps_back BYTES, pps BYTES, pps_back BYTES
//!     residual PLACE DC QP, luma_dc PLACE QP       of levels that are 1 at this place, 0 to 2 in zig-zag order, and else 0
//!     chroma_dc LEVELS QPC, chroma_qp QP OFFSET    levels are four numbers with commas
//!     predict4 MODE LEFT TOP RIGHT CORNER, predict16 MODE LEFT TOP CORNER, predict_chroma MODE LEFT TOP CORNER
//!     vector SHAPE INDEX REFERENCE A B C D, skip_vector A B C D
//!                                                  a neighbour is -, intra or REFERENCE:X:Y
//!     weigh BYTES DENOM WEIGHT OFFSET              weighted samples
//!     plane WIDTH HEIGHT VALUE, put_rect X Y WIDTH HEIGHT BYTES, set X Y VALUE
//!     at X Y, clamped X Y, clamped_rect X Y WIDTH HEIGHT, row Y, luma X Y WIDTH HEIGHT, chroma X Y WIDTH HEIGHT
//!                                                  what is in the plane, and what is predicted from it
//!     picture WIDTH HEIGHT, picture_of_size WIDTH HEIGHT, tiles Y CB CR Y CB CR, fill PLANE BYTES, put_bits FORMAT BYTES
//!     edge LEFT RIGHT                              two macroblocks of these samples, filtered
//!     samples PLANE, get_bits FORMAT, mix FORMAT   what is in the picture, whose planes are y, cb and cr
//!     render WIDTH INFO BYTES                      decodes a picture of so many macroblocks, and once more with its slices
//!                                                  constructed at once: its units, and its outcome by both
//!     meet INFO BYTES                              decodes a picture of two macroblocks, each a slice, whose gates wait
//!                                                  for each other: whether both have met, and the outcome
//!     turned WIDTH INFO BYTES FROM TO UNITS OUTCOMES
//!                                                  so with each bit of some bytes turned over: how many come to this
#![tactic(auto)]

mod bits;
mod desk;
mod infos;
mod line;
mod meeting;
mod pictures;
mod planes;
mod predictions;
mod renders;
mod sets;
mod slices;
mod tables;
mod told;
mod transforms;
mod types;
mod units;

use desk::Desk;
use line::Line;
use std::io;

fn main(rt: HostRuntime) -> io::Result<()> {
    let mut desk = Desk::new(rt.alloc())?;
    for text in rt.lines(rt.alloc()) {
        let text = text?;
        match desk.answer(&rt, rt.alloc(), Line::read(text.as_str())) {
            Some(answer) => {
                let answer = answer?;
                println!(rt; "{text} -> {answer}")?
            }
            None => println!(rt; "{text}")?,
        }
    }
    Ok(())
}
