//! Streams by hand: each line of standard input is a call, and is written to standard output with its answer behind an
//! arrow. A line that is no call is written as it is. Bytes are in hex.
//!
//!     make NUMBER                                  the bytes of the stream that is made from the number: how many, and
//!                                                  their sum
//!     turns PERIOD PIECE SCRIPT BYTES              the turns of a stream with these bytes, which are fed so many at a
//!                                                  time, by a script whose lines end at a bar and have a wave for
//!                                                  each space. Each picture that is to be decoded counts as whole
#![tactic(auto)]

mod line;
mod made;
mod turns;

use line::{Line, number};
use std::alloc::Global;
use std::io;

fn main(rt: HostRuntime) -> io::Result<()> {
    for text in rt.lines(rt.alloc()) {
        let text = text?;
        match answer(rt.alloc(), Line::read(text.as_str())) {
            Some(answer) => {
                let answer = answer?;
                println!(rt; "{text} -> {answer}")?
            }
            None => println!(rt; "{text}")?,
        }
    }
    Ok(())
}

// Makes a call, if the line is one.
fn answer(alloc: Global, line: Line<'_>) -> Option<line::Text> {
    let [first, second, third, fourth] = line.words;
    match line.name {
        "make" => Some(made::made(alloc, number(first))),
        "turns" => Some(turns::turns(alloc, number(first), number(second), third, fourth)),
        _ => None,
    }
}
