// A line for each picture, in decoding order.
ghost use Rattle.std.specs.Prelude.{◌≡◌, ◌⊎◌, ◌-◌, ◌∷◌, ℕ, List, [], IfErr, IfOk, IsErrOf, OnOk};
ghost use Rattle.std.specs.declared.option.Option.{Option};
ghost use Rattle.std.specs.Io.KnownBytes.{Appends};
ghost use Rattle.vd_outside.specs.Count.{HasCause};
ghost use Rattle.accepted_pictures.specs.Files.{Decoded, pictures_in};
ghost use Rattle.file_pictures.specs.Streams.{Shows};
ghost use Rattle.std.specs.String.{string_bytes};
ghost use Rattle.access_units.specs.Pictures.{periods};
ghost use Rattle.vdplay.specs.Output.{last_line, line_with, picture_line};
ghost use Rattle.vdplay.specs.Outside.{StopsWriting, sink_state};
ghost use Rattle.vdplay.specs.Run.{AppendsFront};
ghost use Rattle.vdplay.specs.Reports.{CountsPeriods, IsNextOf};

use crate::exit::Exit;
use crate::writing::write_all;
use file_pictures::DecodedPicture;
use std::alloc::{AllocError, Global};
use vd_outside::Sink;

/// Writes a line for each picture to a sink, in decoding order, and one at the end.
#[derive(Drop)]
pub struct LineWriter {
    alloc: Global,
    // How many periods have begun.
    periods: u32,
}

impl LineWriter {
    /// No picture came.
    pub fn new(alloc: Global) -> LineWriter
        ensures { CountsPeriods result [] }
    {
        LineWriter { alloc, periods: 0 }
    }

    /// The next picture comes.
    pub fn picture<K: Sink>(&mut self, sink: &mut K, shown: DecodedPicture) -> Result<(), Exit>
        requires { (decoded : List Decoded) × ((one : Decoded) × CountsPeriods self.old decoded × IsNextOf decoded one × Shows shown one) }
        ensures line { OnOk result ((decoded : List Decoded) (one : Decoded) → CountsPeriods self.old decoded → IsNextOf decoded one → Shows shown one →
            Appends (K.written sink.old) (K.written sink.new) (picture_line decoded one)) }
        ensures front { (decoded : List Decoded) (one : Decoded) → CountsPeriods self.old decoded → IsNextOf decoded one → Shows shown one →
            AppendsFront (K.written sink.old) (K.written sink.new) (picture_line decoded one) }
        ensures periods { (decoded : List Decoded) (one : Decoded) → CountsPeriods self.old decoded → IsNextOf decoded one → Shows shown one →
            CountsPeriods self.new (one ∷ decoded) }
        ensures cause { HasCause (IsErrOf result Exit.WriteFault) (K.faults sink.old) (K.faults sink.new) }
        ensures faultless { OnOk result (K.faults sink.new ≡ K.faults sink.old) }
        ensures exits { IfErr result (λ exit. (exit ≡ Exit.WriteFault) ⊎ (exit ≡ Exit.OutOfMemory)) }
        ensures stops { IfErr result (λ exit. StopsWriting exit
            (sink_state (K.written sink.old) (K.faults sink.old) (K.written_at_fault sink.old))
            (sink_state (K.written sink.new) (K.faults sink.new) (K.written_at_fault sink.new))) }
    {
        let period = self.period_of(shown.period);
        let line = line_of(self.alloc, shown.offset, period, shown.poc)?;
        write_all(sink, line.as_bytes())?;
        Ok(())
    }

    // The number of the next picture's period, from 0.
    fn period_of(&mut self, begins: bool) -> u32
        requires { (decoded : List Decoded) × ((one : Decoded) × CountsPeriods self.old decoded × IsNextOf decoded one × (begins ≡ one.picture.begun.period)) }
        ensures number { (decoded : List Decoded) (one : Decoded) → CountsPeriods self.old decoded → IsNextOf decoded one → begins ≡ one.picture.begun.period →
            result ≡ periods (pictures_in (one ∷ decoded)) - 1 }
        ensures periods { (decoded : List Decoded) (one : Decoded) → CountsPeriods self.old decoded → IsNextOf decoded one → begins ≡ one.picture.begun.period →
            CountsPeriods self.new (one ∷ decoded) }
    {
        self.periods += u32::from(begins);
        self.periods - 1
    }

    /// No further picture comes, since the access unit at a place is refused, or since the file ends.
    pub fn end<K: Sink>(&mut self, sink: &mut K, refused: Option<u64>) -> Result<(), Exit>
        ensures line { OnOk result (Appends (K.written sink.old) (K.written sink.new) (last_line refused)) }
        ensures front { AppendsFront (K.written sink.old) (K.written sink.new) (last_line refused) }
        ensures cause { HasCause (IsErrOf result Exit.WriteFault) (K.faults sink.old) (K.faults sink.new) }
        ensures faultless { OnOk result (K.faults sink.new ≡ K.faults sink.old) }
        ensures exits { IfErr result (λ exit. (exit ≡ Exit.WriteFault) ⊎ (exit ≡ Exit.OutOfMemory)) }
        ensures stops { IfErr result (λ exit. StopsWriting exit
            (sink_state (K.written sink.old) (K.faults sink.old) (K.written_at_fault sink.old))
            (sink_state (K.written sink.new) (K.faults sink.new) (K.written_at_fault sink.new))) }
    {
        let Some(offset) = refused else {
            write_all(sink, b"END\n")?;
            return Ok(());
        };
        let line = format!(in self.alloc; "REFUSED {offset}\n")?;
        write_all(sink, line.as_bytes())?;
        Ok(())
    }
}

// The line of a picture.
fn line_of(alloc: Global, offset: u64, period: u32, poc: i32) -> Result<String, AllocError>
    ensures { IfOk result (λ line. string_bytes line ≡ line_with offset period poc) }
{
    format!(in alloc; "PICTURE {offset} {period} {poc}\n")
}
