// One file from its first byte to its last, or to the first access unit that isn't accepted.
ghost use Rattle.std.specs.Prelude.{◌≡◌, ◌⊎◌, ◌<◌, ◌≤◌, ℕ, List, [], true, false, length, IfErr, IfOk, IfSome, IsErr, IsErrOf, OnOk, OnErr, None, MatchBool};
ghost use Rattle.std.specs.declared.option.Option.{Option};
ghost use Rattle.vd_outside.specs.Count.{HasCause, raised};
ghost use Rattle.vd_outside.specs.Shelf.{IsMissing, told};
ghost use Rattle.accepted_pictures.specs.Streams.{no_stream};
ghost use Rattle.vdplay.specs.Outside.{AreSame, IsReadAlone, Leaves, shelf_state, sink_state};
ghost use Rattle.vdplay.specs.Reading.{Reads};
ghost use Rattle.vdplay.specs.Reports.{HasWritten, command_of};
ghost use Rattle.vdplay.specs.Run.{HasRun, exit_in, refusal_of};

use crate::exit::Exit;
use crate::file_reader::{FileReader, MAX_FILE};
use crate::report::Report;
use file_pictures::Step;
use std::alloc::Global;
use vd_outside::{Failed, Shelf, Sink};

/// As many answers as a file has at most: 7,000,000 pictures, and its end.
const MAX_ANSWERS: u32 = 7_000_001;

/// Reads the file and writes what is reported of its pictures.
pub fn run_file<S: Shelf, K: Sink>(
    alloc: Global,
    shelf: &mut S,
    name: &str,
    sink: &mut K,
    report: &mut Report,
) -> Result<(), Exit>
    requires { HasWritten report.old [] (K.written sink.old) (K.written sink.old) }
    ensures run { HasRun (told (S.content shelf.old) name.now) (command_of report.old) (K.written sink.old) (K.written sink.new)
        (S.faults shelf.old name.now) (S.faults shelf.new name.now) (K.faults sink.old) (K.faults sink.new) (exit_in result) }
    ensures left { Leaves (exit_in result) name.now
        (shelf_state (S.content shelf.old) (S.faults shelf.old) (S.reads shelf.old))
        (shelf_state (S.content shelf.new) (S.faults shelf.new) (S.reads shelf.new))
        (sink_state (K.written sink.old) (K.faults sink.old) (K.written_at_fault sink.old))
        (sink_state (K.written sink.new) (K.faults sink.new) (K.written_at_fault sink.new)) }
    ensures missing { IsMissing (S.content shelf.old) name.now → sink.new ≡ sink.old }
{
    if is_too_long(shelf, name)? {
        report.end(sink, Some(0))?;
        return Err(Exit::TooLarge { stream: 0 });
    }
    let mut reader = FileReader::new(alloc)?;
    run_reader(&mut reader, shelf, name, sink, report)
}

// Reads the file to its end, or to the first access unit that isn't accepted.
fn run_reader<S: Shelf, K: Sink>(
    reader: &mut FileReader,
    shelf: &mut S,
    name: &str,
    sink: &mut K,
    report: &mut Report,
) -> Result<(), Exit>
    requires reads { Reads reader.old (told (S.content shelf.old) name.now) no_stream }
    requires written { HasWritten report.old [] (K.written sink.old) (K.written sink.old) }
    ensures run { HasRun (told (S.content shelf.old) name.now) (command_of report.old) (K.written sink.old) (K.written sink.new)
        (S.faults shelf.old name.now) (S.faults shelf.new name.now) (K.faults sink.old) (K.faults sink.new) (exit_in result) }
    ensures left { Leaves (exit_in result) name.now
        (shelf_state (S.content shelf.old) (S.faults shelf.old) (S.reads shelf.old))
        (shelf_state (S.content shelf.new) (S.faults shelf.new) (S.reads shelf.new))
        (sink_state (K.written sink.old) (K.faults sink.old) (K.written_at_fault sink.old))
        (sink_state (K.written sink.new) (K.faults sink.new) (K.written_at_fault sink.new)) }
{
    for _given in 0..MAX_ANSWERS {
        match reader.next(shelf, name)? {
            Step::Picture(shown) => report.picture(sink, shown)?,
            Step::End => return report.end(sink, None),
            Step::Refused { offset, large } => {
                report.end(sink, Some(offset))?;
                return Err(refusal(offset, large));
            }
            Step::Hungry => unreachable!(),
        }
    }
    unreachable!()
}

// Whether the file has a byte behind its greatest length.
fn is_too_long<S: Shelf>(shelf: &mut S, name: &str) -> Result<bool, Failed>
    ensures long { IfOk result (λ long. IfSome (told (S.content shelf.old) name.now) (λ file. MatchBool long (1073741824 < length file) (length file ≤ 1073741824))) }
    ensures kept { S.content shelf.new ≡ S.content shelf.old }
    ensures cause { HasCause (IsErr result) (S.faults shelf.old name.now) (S.faults shelf.new name.now) }
    ensures faultless { OnOk result (AreSame (S.faults shelf.old) (S.faults shelf.new)) }
    ensures missing { IsMissing (S.content shelf.old) name.now → IsErr result }
    ensures alone { IsReadAlone name.now (shelf_state (S.content shelf.old) (S.faults shelf.old) (S.reads shelf.old))
        (shelf_state (S.content shelf.new) (S.faults shelf.new) (S.reads shelf.new)) }
    ensures stops { OnErr result (S.faults shelf.new name.now ≡ raised (S.faults shelf.old name.now)) }
{
    let mut byte = [0; 1];
    let n = shelf.read_at(name, MAX_FILE, &mut byte)?;
    Ok(n > 0)
}

// How a refused access unit ends the run.
fn refusal(offset: u64, large: bool) -> Exit
    ensures { result ≡ refusal_of offset large }
{
    if large {
        Exit::TooLarge { stream: 0 }
    } else {
        Exit::BadStream { stream: 0, offset }
    }
}
