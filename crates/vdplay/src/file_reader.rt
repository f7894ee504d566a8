// A file that is read piece by piece while its pictures are decoded.
ghost use Rattle.std.specs.Prelude.{◌≡◌, ◌⊎◌, ◌+◌, ◌<◌, ◌≤◌, ℕ, List, [], true, false, drop, take, length, IfErr, IfOk, IfSome, IsErr, IsErrOf, OnErr, OnOk};
ghost use Rattle.std.specs.declared.option.Option.{Option};
ghost use Rattle.vd_outside.specs.Count.{HasCause, raised};
ghost use Rattle.vd_outside.specs.Shelf.{told};
ghost use Rattle.accepted_pictures.specs.Streams.{Stream, no_stream};
ghost use Rattle.file_pictures.specs.Streams.{HasSmallDepth};
ghost use Rattle.vdplay.specs.Outside.{AreSame, IsReadAlone, StopsReading, shelf_state};
ghost use Rattle.vdplay.specs.Reading.{IsAnswer, IsPiece, Reads, ReadsOn};

use crate::exit::Exit;
use file_pictures::{Step, StreamDecoder};
use std::alloc::{AllocError, Global};
use vd_outside::{Failed, Shelf};

/// Files have so many bytes at most: 1 GiB.
pub const MAX_FILE: u64 = 1_073_741_824;

/// How many bytes are read at once.
const PIECE: usize = 65_536;

/// A file that is read piece by piece while its pictures are decoded.
#[derive(Drop)]
pub struct FileReader {
    decoder: StreamDecoder,
    piece: Vec<u8>,
    // How many bytes were read, and whether the file ends there.
    at: u64,
    ended: bool,
}

impl FileReader {
    /// Nothing was read.
    pub fn new(alloc: Global) -> Result<FileReader, AllocError>
        ensures { IfOk result (λ reader. (known : Option (List ℕ)) → IfSome known (λ file. length file ≤ 1073741824) → Reads reader known no_stream) }
    {
        Ok(FileReader {
            decoder: StreamDecoder::new(alloc),
            piece: vec![in alloc; 0; PIECE]?,
            at: 0,
            ended: false,
        })
    }

    /// The next picture, or what stands in its way; the file is read on as far as that wants.
    pub fn next<S: Shelf>(&mut self, shelf: &mut S, name: &str) -> Result<Step, Exit>
        requires { (stream : Stream) × Reads self.old (told (S.content shelf.old) name.now) stream }
        ensures answer { IfOk result (λ answer. (stream : Stream) → Reads self.old (told (S.content shelf.old) name.now) stream →
            IsAnswer (told (S.content shelf.old) name.now) stream.decoded answer self.new) }
        ensures depth { IfOk result HasSmallDepth }
        ensures kept { S.content shelf.new ≡ S.content shelf.old }
        ensures cause { HasCause (IsErrOf result Exit.ReadFault) (S.faults shelf.old name.now) (S.faults shelf.new name.now) }
        ensures faultless { OnOk result (AreSame (S.faults shelf.old) (S.faults shelf.new)) }
        ensures alone { IsReadAlone name.now (shelf_state (S.content shelf.old) (S.faults shelf.old) (S.reads shelf.old))
            (shelf_state (S.content shelf.new) (S.faults shelf.new) (S.reads shelf.new)) }
        ensures exits { IfErr result (λ exit. (exit ≡ Exit.ReadFault) ⊎ (exit ≡ Exit.OutOfMemory)) }
        ensures stops { IfErr result (λ exit. StopsReading exit name.now (S.faults shelf.old) (S.faults shelf.new)) }
    {
        while !self.ended {
            match self.decoder.next()? {
                Step::Hungry => self.read(shelf, name)?,
                step => return Ok(step),
            }
        }
        Ok(self.decoder.next()?)
    }

    // Reads the next piece.
    fn read<S: Shelf>(&mut self, shelf: &mut S, name: &str) -> Result<(), Exit>
        requires { (stream : Stream) × Reads self.old (told (S.content shelf.old) name.now) stream × (stream.ended ≡ false) }
        ensures reads { OnOk result ((stream : Stream) → Reads self.old (told (S.content shelf.old) name.now) stream → stream.ended ≡ false →
            ReadsOn self.new (told (S.content shelf.old) name.now) stream.decoded) }
        ensures further { OnOk result ((self.old.at < self.new.at) ⊎ ((self.new.at ≡ self.old.at) × (self.new.ended ≡ true))) }
        ensures kept { S.content shelf.new ≡ S.content shelf.old }
        ensures cause { HasCause (IsErrOf result Exit.ReadFault) (S.faults shelf.old name.now) (S.faults shelf.new name.now) }
        ensures faultless { OnOk result (AreSame (S.faults shelf.old) (S.faults shelf.new)) }
        ensures alone { IsReadAlone name.now (shelf_state (S.content shelf.old) (S.faults shelf.old) (S.reads shelf.old))
            (shelf_state (S.content shelf.new) (S.faults shelf.new) (S.reads shelf.new)) }
        ensures exits { IfErr result (λ exit. (exit ≡ Exit.ReadFault) ⊎ (exit ≡ Exit.OutOfMemory)) }
        ensures stops { IfErr result (λ exit. StopsReading exit name.now (S.faults shelf.old) (S.faults shelf.new)) }
    {
        let n = read_piece(shelf, name, self.at, &mut self.piece)?;
        self.decoder.feed(&self.piece[..n])?;
        self.at += n as u64;
        self.ended = n == 0;
        Ok(())
    }
}

// Reads bytes from a place on, as many as fit the piece and the greatest file.
fn read_piece<S: Shelf>(
    shelf: &mut S,
    name: &str,
    at: u64,
    piece: &mut [u8],
) -> Result<usize, Failed>
    requires most { at ≤ 1073741824 }
    requires some { 0 < length piece.old }
    ensures count { IfOk result (λ n. n ≤ length piece.old) }
    ensures room { IfOk result (λ n. at + n ≤ 1073741824) }
    ensures bytes { IfOk result (λ n. IfSome (told (S.content shelf.old) name.now) (IsPiece at n (take n piece.new))) }
    ensures kept { S.content shelf.new ≡ S.content shelf.old }
    ensures cause { HasCause (IsErr result) (S.faults shelf.old name.now) (S.faults shelf.new name.now) }
    ensures faultless { OnOk result (AreSame (S.faults shelf.old) (S.faults shelf.new)) }
    ensures alone { IsReadAlone name.now (shelf_state (S.content shelf.old) (S.faults shelf.old) (S.reads shelf.old))
        (shelf_state (S.content shelf.new) (S.faults shelf.new) (S.reads shelf.new)) }
    ensures stops { OnErr result (S.faults shelf.new name.now ≡ raised (S.faults shelf.old name.now)) }
{
    let room = piece.len().min((MAX_FILE - at) as usize);
    shelf.read_at(name, at, &mut piece[..room])
}
