//! `vdplay` decodes H.264 files to planes of samples.
#![tactic(auto)]

mod command_line;
mod exit;
mod file_reader;
mod file_run;
mod line_writer;
mod plane_writer;
mod report;
mod run;
#[cfg(test)]
mod tests;
mod writing;

pub use exit::Exit;
pub use run::run_plain;
use std::io::ErrorKind;
use std::process::ExitCode;
use std::rt::Env;
use std::{env, io};
use vd_outside::{FileShelf, StreamSink};

fn main(rt: HostRuntime) -> ExitCode {
    let exit = match words(&rt) {
        Ok(words) => run_plain(
            rt.alloc(),
            &words,
            &mut FileShelf::new(rt),
            &mut StreamSink::new(io::writer(&rt)),
        ),
        Err(exit) => exit,
    };
    if exit != Exit::Done {
        let _ = eprintln!(rt; "{exit}");
    }
    ExitCode::from(exit.number())
}

// The words of the command line, without the program's own name. A word that isn't UTF-8 is in no line.
fn words<R: Env + AllocGlobal>(rt: &R) -> Result<Vec<String>, Exit> {
    let words = match env::args(rt) {
        Ok(words) => words,
        Err(fault) if fault.kind() == ErrorKind::OutOfMemory => return Err(Exit::OutOfMemory),
        Err(_) => return Err(Exit::Usage),
    };
    Ok(words.skip(1).collect(rt.alloc())?)
}
