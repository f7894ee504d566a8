// The commands that wait for nobody.
ghost use Rattle.std.specs.Prelude.{◌≡◌, ◌⊎◌, ◌↔◌, ℕ, ◌≤◌, List, Some, None, true, false};
ghost use Rattle.std.specs.Io.KnownBytes.{Keeps};
ghost use Rattle.vd_outside.specs.Count.{HasCause, Rose};
ghost use Rattle.vd_outside.specs.Shelf.{IsMissing};
ghost use Rattle.vdplay.specs.CommandLine.{IsLine, IsNoLine, texts};
ghost use Rattle.vdplay.specs.Outside.{LeavesCounts};
ghost use Rattle.vdplay.specs.Run.{AppendsPart, AppendsText, HasAppended, IsDecided, IsStopped, IsTask, exit_in};
ghost use Rattle.vdplay.specs.declared.command_line.Command.{Command};

use crate::command_line::command_in;
use crate::exit::Exit;
use crate::file_run::run_file;
use crate::report::Report;
use std::alloc::Global;
use vd_outside::{Shelf, Sink};

/// Does what the words of the command line say, without the program's own name. `decode FILE` writes the
/// pictures of the file to the sink in output order: Y, Cb and Cr of each, by rows. `inspect FILE` writes a
/// line for each picture in decoding order, and one for the end or for the access unit that isn't accepted.
pub fn run_plain<S: Shelf, K: Sink>(
    alloc: Global,
    words: &[String],
    shelf: &mut S,
    sink: &mut K,
) -> Exit
    ensures usage { (result ≡ Exit.Usage) ↔ IsNoLine (texts words.now) }
    ensures untouched { result ≡ Exit.Usage → (shelf.new ≡ shelf.old) × (sink.new ≡ sink.old) }

    // What is written where shelf and sink tell their bytes: exactly the text of the file's accepted
    // pictures where the run was decided by the file, and else a front of that text.
    ensures appended { (command : Command) (file : List ℕ) → IsTask (texts words.now) (S.content shelf.old) command file →
        HasAppended result (K.written sink.old) (K.written sink.new) command file }

    // A fault is blamed on the outside only where it was counted there in this call.
    ensures read_fault { (command : Command) (name : List ℕ) → IsLine (texts words.now) command name →
        HasCause (result ≡ Exit.ReadFault) (S.faults shelf.old name) (S.faults shelf.new name) }
    ensures write_fault { HasCause (result ≡ Exit.WriteFault) (K.faults sink.old) (K.faults sink.new) }

    // A fault ends the run where it is met: none was counted on the way to what the file decides.
    ensures faultless { (command : Command) (name : List ℕ) → IsLine (texts words.now) command name → IsDecided result →
        (S.faults shelf.new name ≡ S.faults shelf.old name) × (K.faults sink.new ≡ K.faults sink.old) }

    // It is the last thing that is met: it is counted once, at the file or at the sink, and the other count stays, as
    // both do for want of memory. Nothing was written behind a write that failed.
    ensures counts { (command : Command) (name : List ℕ) → IsLine (texts words.now) command name →
        LeavesCounts result name (S.faults shelf.old) (S.faults shelf.new) (K.faults sink.old) (K.faults sink.new) }
    ensures nothing_behind { result ≡ Exit.WriteFault → Keeps (K.written_at_fault sink.new) (K.written sink.new) }

    // Nothing is written for a file that isn't held.
    ensures missing { (command : Command) (name : List ℕ) → IsLine (texts words.now) command name →
        IsMissing (S.content shelf.old) name → sink.new ≡ sink.old }

    // Whatever the end, the files are as before, no count of faults is lower, and no file was read but the one that the
    // words name.
    ensures kept { S.content shelf.new ≡ S.content shelf.old }
    ensures reads_never_lower { (name : List ℕ) → S.faults shelf.old name ≤ S.faults shelf.new name }
    ensures writes_never_lower { K.faults sink.old ≤ K.faults sink.new }
    ensures no_other { (other : List ℕ) → ((command : Command) → IsLine (texts words.now) command other → ⊥) →
        S.reads shelf.new other ≡ S.reads shelf.old other }

    // A line of the grammar is decided by the file, which is stream 0, or stopped; without a counted fault
    // it is stopped for want of memory alone.
    ensures exits { (command : Command) (name : List ℕ) → IsLine (texts words.now) command name → IsDecided result ⊎ IsStopped result }
    ensures complete { (command : Command) (name : List ℕ) → IsLine (texts words.now) command name →
        ¬ Rose (S.faults shelf.old name) (S.faults shelf.new name) → ¬ Rose (K.faults sink.old) (K.faults sink.new) →
        IsDecided result ⊎ (result ≡ Exit.OutOfMemory) }
{
    let Some((command, name)) = command_in(words) else {
        return Exit::Usage;
    };
    let mut report = Report::new(alloc, command);
    ended(run_file(alloc, shelf, name, sink, &mut report))
}

// How a run with this answer ends.
fn ended(answer: Result<(), Exit>) -> Exit
    ensures { result ≡ exit_in answer }
{
    match answer {
        Ok(()) => Exit::Done,
        Err(exit) => exit,
    }
}
