// Real files: the edge to the file system.
ghost use Rattle.std.specs.Prelude.{◌≡◌, ◌<◌, ◌≤◌, length, None, IfOk, OnErr};

use crate::shelf::{Failed, Shelf};
use std::io::{ErrorKind, Read, Seek, SeekFrom};
use std::rt::Files;
use std::{fs, io};

// A read gives at most so many bytes.
const CHUNK: usize = 16384;

/// The files of the system, each opened anew at each read. It tells nothing of what they contain; its
/// count of faults is that of every name.
#[derive(Drop)]
pub struct FileShelf<R> {
    rt: R,
    failures: u64,
}

impl<R: Files> FileShelf<R> {
    ghost use Rattle.vd_outside.specs.Edge.{failed_reads};

    /// The files that this runtime reaches.
    pub fn new(rt: R) -> FileShelf<R>
        ensures { failed_reads result ≡ 0 }
    {
        FileShelf { rt, failures: 0 }
    }
}

impl<R: Files> Shelf for FileShelf<R> {
    ghost use Rattle.vd_outside.specs.Edge.{failed_reads};

    ghost content = { λ _. None };

    ghost faults = { λ shelf _. failed_reads shelf };

    fn read_at(&mut self, name: &str, at: u64, buf: &mut [u8]) -> Result<usize, Failed> {
        match read_chunk(&self.rt, name, at, buf) {
            Ok(n) => Ok(n),
            Err(_) => {
                self.failures = self.failures.saturating_add(1);
                Err(Failed)
            }
        }
    }
}

// Opens the file and reads once, at most a chunk. The buffer is written only where the read went well.
fn read_chunk<R: Files>(rt: &R, name: &str, at: u64, buf: &mut [u8]) -> io::Result<usize>
    ensures count { IfOk result (λ n. n ≤ length buf.old) }
    ensures untouched { OnErr result (buf.new ≡ buf.old) }
{
    let mut chunk = [0; CHUNK];
    let mut file = fs::open(rt, name)?;
    file.seek(SeekFrom::Start(at))?;
    let room = buf.len().min(CHUNK);
    let n = read_once(&mut file, &mut chunk[..room])?;
    buf[..n].copy_from_slice(&chunk[..n]);
    Ok(n)
}

// One read. A signal that comes in between doesn't count as a fault, but where no read gets through at all.
fn read_once<F: Read>(file: &mut F, buf: &mut [u8]) -> io::Result<usize>
    ensures { IfOk result (λ n. n ≤ length buf.old) }
{
    for _ in 0..u64::MAX {
        match file.read(buf) {
            Err(fault) if fault.kind() == ErrorKind::Interrupted => {}
            answer => return answer,
        }
    }
    Err(io::Error::from(ErrorKind::Interrupted))
}
