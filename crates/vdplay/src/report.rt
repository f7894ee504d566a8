// What a command writes of a file's pictures.
ghost use Rattle.std.specs.Prelude.{◌≡◌, ◌⊎◌, ◌∷◌, ℕ, List, [], IfErr, IsErrOf, OnOk};
ghost use Rattle.std.specs.declared.option.Option.{Option};
ghost use Rattle.std.specs.Io.KnownBytes.{Appends};
ghost use Rattle.vd_outside.specs.Count.{HasCause};
ghost use Rattle.accepted_pictures.specs.Files.{Decoded};
ghost use Rattle.file_pictures.specs.Streams.{Shows};
ghost use Rattle.vdplay.specs.Output.{text_of};
ghost use Rattle.vdplay.specs.Outside.{StopsWriting, sink_state};
ghost use Rattle.vdplay.specs.Run.{AppendsFront};
ghost use Rattle.vdplay.specs.Reports.{AppendsAhead, HasWritten, IsNextOf, command_of};

use crate::command_line::Command;
use crate::exit::Exit;
use crate::line_writer::LineWriter;
use crate::plane_writer::PlaneWriter;
use file_pictures::DecodedPicture;
use std::alloc::Global;
use vd_outside::Sink;

/// What a command writes of a file's pictures, which come in decoding order.
#[derive(Drop)]
pub enum Report {
    Planes(PlaneWriter),
    Lines(LineWriter),
}

impl Report {
    /// The report of a command, before any picture.
    pub fn new(alloc: Global, command: Command) -> Report
        ensures command { command_of result ≡ command }
        ensures nothing { (start : Option (List ℕ)) → HasWritten result [] start start }
    {
        match command {
            Command::Decode => Report::Planes(PlaneWriter::new(alloc)),
            Command::Inspect => Report::Lines(LineWriter::new(alloc)),
        }
    }

    /// The next picture comes.
    pub fn picture<K: Sink>(&mut self, sink: &mut K, shown: DecodedPicture) -> Result<(), Exit>
        requires { (decoded : List Decoded) × ((one : Decoded) × ((start : Option (List ℕ)) × HasWritten self.old decoded start (K.written sink.old) × IsNextOf decoded one × Shows shown one)) }
        ensures written { OnOk result ((decoded : List Decoded) (one : Decoded) (start : Option (List ℕ)) → HasWritten self.old decoded start (K.written sink.old) → IsNextOf decoded one → Shows shown one →
            HasWritten self.new (one ∷ decoded) start (K.written sink.new)) }
        ensures front { (decoded : List Decoded) (one : Decoded) (start : Option (List ℕ)) → HasWritten self.old decoded start (K.written sink.old) → IsNextOf decoded one → Shows shown one →
            AppendsAhead start (K.written sink.new) (command_of self.old) (one ∷ decoded) }
        ensures command { command_of self.new ≡ command_of self.old }
        ensures cause { HasCause (IsErrOf result Exit.WriteFault) (K.faults sink.old) (K.faults sink.new) }
        ensures faultless { OnOk result (K.faults sink.new ≡ K.faults sink.old) }
        ensures exits { IfErr result (λ exit. (exit ≡ Exit.WriteFault) ⊎ (exit ≡ Exit.OutOfMemory)) }
        ensures stops { IfErr result (λ exit. StopsWriting exit
            (sink_state (K.written sink.old) (K.faults sink.old) (K.written_at_fault sink.old))
            (sink_state (K.written sink.new) (K.faults sink.new) (K.written_at_fault sink.new))) }
    {
        match self {
            Report::Planes(writer) => writer.picture(sink, shown),
            Report::Lines(writer) => writer.picture(sink, shown),
        }
    }

    /// No further picture comes, since the access unit at a place is refused, or since the file ends.
    pub fn end<K: Sink>(&mut self, sink: &mut K, refused: Option<u64>) -> Result<(), Exit>
        requires { (decoded : List Decoded) × ((start : Option (List ℕ)) × HasWritten self.old decoded start (K.written sink.old)) }
        ensures written { OnOk result ((decoded : List Decoded) (start : Option (List ℕ)) → HasWritten self.old decoded start (K.written sink.old) →
            Appends start (K.written sink.new) (text_of (command_of self.old) decoded refused)) }
        ensures front { (decoded : List Decoded) (start : Option (List ℕ)) → HasWritten self.old decoded start (K.written sink.old) →
            AppendsFront start (K.written sink.new) (text_of (command_of self.old) decoded refused) }
        ensures cause { HasCause (IsErrOf result Exit.WriteFault) (K.faults sink.old) (K.faults sink.new) }
        ensures faultless { OnOk result (K.faults sink.new ≡ K.faults sink.old) }
        ensures exits { IfErr result (λ exit. (exit ≡ Exit.WriteFault) ⊎ (exit ≡ Exit.OutOfMemory)) }
        ensures stops { IfErr result (λ exit. StopsWriting exit
            (sink_state (K.written sink.old) (K.faults sink.old) (K.written_at_fault sink.old))
            (sink_state (K.written sink.new) (K.faults sink.new) (K.written_at_fault sink.new))) }
    {
        match self {
            Report::Planes(writer) => writer.end(sink),
            Report::Lines(writer) => writer.end(sink, refused),
        }
    }
}
