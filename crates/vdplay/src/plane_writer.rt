// Pictures as planes, in output order.
ghost use Rattle.std.specs.Prelude.{◌≡◌, ◌⊎◌, ◌++◌, ◌+◌, ◌<◌, ◌∷◌, [], ℕ, List, false, true, IfErr, IfOk, IfSome, IfNone, IsErrOf, OnOk, OnErr, OnSome, vec_len};
ghost use Rattle.std.specs.declared.option.Option.{Option};
ghost use Rattle.std.specs.Arc.{arc_value};
ghost use Rattle.std.specs.Io.KnownBytes.{Appends};
ghost use Rattle.vd_outside.specs.Count.{HasCause};
ghost use Rattle.accepted_pictures.specs.Files.{Decoded};
ghost use Rattle.file_pictures.specs.Streams.{Shows};
ghost use Rattle.output_order.specs.OutputOrder.{History, has_settled, nothing_yet, popping};
ghost use Rattle.vdplay.specs.Output.{planes_at, planes_in_order, planes_of};
ghost use Rattle.vdplay.specs.Outside.{StopsWriting, sink_state};
ghost use Rattle.vdplay.specs.Run.{AppendsFront};
ghost use Rattle.vdplay.specs.Reports.{AppendsAhead, Holds, IsCalm, IsNextOf, IsOut, Stands, planes_out, pushed_by, with_out};
ghost use Rattle.vdplay.specs.declared.command_line.Command.TheVariants.{Decode};

use crate::exit::Exit;
use crate::writing::write_all;
use file_pictures::DecodedPicture;
use output_order::Waiting;
use std::alloc::Global;
use std::sync::Arc;
use vd_outside::Sink;
use vd_plane::Picture;

// A picture whose turn hasn't come.
#[derive(Drop)]
struct Held {
    number: u32,
    samples: Arc<Picture>,
}

/// Writes pictures to a sink in output order: the Y, Cb and Cr planes of each, by rows.
#[derive(Drop)]
pub struct PlaneWriter {
    waiting: Waiting,
    held: Vec<Held>,
    // How many pictures came.
    count: u32,
}

impl PlaneWriter {
    /// No picture came.
    pub fn new(alloc: Global) -> PlaneWriter
        ensures { IsCalm result [] nothing_yet }
    {
        PlaneWriter {
            waiting: Waiting::new(),
            held: Vec::new(alloc),
            count: 0,
        }
    }

    /// The next picture in decoding order comes; those are written whose turn it is.
    pub fn picture<K: Sink>(&mut self, sink: &mut K, shown: DecodedPicture) -> Result<(), Exit>
        requires { (decoded : List Decoded) × ((one : Decoded) × ((h : History) × IsCalm self.old decoded h × IsNextOf decoded one × Shows shown one)) }
        ensures written { OnOk result ((decoded : List Decoded) (one : Decoded) (h : History) (start : Option (List ℕ)) → IsCalm self.old decoded h → IsNextOf decoded one → Shows shown one →
            Appends start (K.written sink.old) (planes_out decoded h) →
            (now : History) × IsCalm self.new (one ∷ decoded) now × Appends start (K.written sink.new) (planes_out (one ∷ decoded) now)) }
        ensures front { (decoded : List Decoded) (one : Decoded) (h : History) (start : Option (List ℕ)) → IsCalm self.old decoded h → IsNextOf decoded one → Shows shown one →
            Appends start (K.written sink.old) (planes_out decoded h) →
            AppendsAhead start (K.written sink.new) Decode (one ∷ decoded) }
        ensures cause { HasCause (IsErrOf result Exit.WriteFault) (K.faults sink.old) (K.faults sink.new) }
        ensures faultless { OnOk result (K.faults sink.new ≡ K.faults sink.old) }
        ensures exits { IfErr result (λ exit. (exit ≡ Exit.WriteFault) ⊎ (exit ≡ Exit.OutOfMemory)) }
        ensures stops { IfErr result (λ exit. StopsWriting exit
            (sink_state (K.written sink.old) (K.faults sink.old) (K.written_at_fault sink.old))
            (sink_state (K.written sink.new) (K.faults sink.new) (K.written_at_fault sink.new))) }
    {
        self.hold(shown)?;
        self.write_settled(sink)
    }

    // The next picture in decoding order is held.
    fn hold(&mut self, shown: DecodedPicture) -> Result<(), Exit>
        requires { (decoded : List Decoded) × ((one : Decoded) × ((h : History) × IsCalm self.old decoded h × IsNextOf decoded one × Shows shown one)) }
        ensures held { OnOk result ((decoded : List Decoded) (one : Decoded) (h : History) → IsCalm self.old decoded h → IsNextOf decoded one → Shows shown one →
            Stands self.new (one ∷ decoded) (pushed_by h decoded one)) }
        ensures exits { IfErr result (λ exit. exit ≡ Exit.OutOfMemory) }
    {
        let _ = self
            .waiting
            .push(self.count, shown.poc, shown.period, shown.depth);
        let held = Held {
            number: self.count,
            samples: shown.samples,
        };
        if self.held.push(held).is_err() {
            return Err(Exit::OutOfMemory);
        }
        self.count += 1;
        Ok(())
    }

    /// No further picture comes: all that wait are written.
    pub fn end<K: Sink>(&mut self, sink: &mut K) -> Result<(), Exit>
        requires { (decoded : List Decoded) × ((h : History) × IsCalm self.old decoded h) }
        ensures written { OnOk result ((decoded : List Decoded) (h : History) (start : Option (List ℕ)) → IsCalm self.old decoded h →
            Appends start (K.written sink.old) (planes_out decoded h) → Appends start (K.written sink.new) (planes_in_order decoded)) }
        ensures front { (decoded : List Decoded) (h : History) (start : Option (List ℕ)) → IsCalm self.old decoded h →
            Appends start (K.written sink.old) (planes_out decoded h) → AppendsFront start (K.written sink.new) (planes_in_order decoded) }
        ensures cause { HasCause (IsErrOf result Exit.WriteFault) (K.faults sink.old) (K.faults sink.new) }
        ensures faultless { OnOk result (K.faults sink.new ≡ K.faults sink.old) }
        ensures exits { IfErr result (λ exit. (exit ≡ Exit.WriteFault) ⊎ (exit ≡ Exit.OutOfMemory)) }
        ensures stops { IfErr result (λ exit. StopsWriting exit
            (sink_state (K.written sink.old) (K.faults sink.old) (K.written_at_fault sink.old))
            (sink_state (K.written sink.new) (K.faults sink.new) (K.written_at_fault sink.new))) }
    {
        self.waiting.end();
        self.write_settled(sink)
    }

    // Writes those whose turn is settled.
    fn write_settled<K: Sink>(&mut self, sink: &mut K) -> Result<(), Exit>
        requires { (decoded : List Decoded) × ((h : History) × Holds self.old decoded h) }
        ensures written { OnOk result ((decoded : List Decoded) (h : History) (start : Option (List ℕ)) → Holds self.old decoded h →
            Appends start (K.written sink.old) (planes_out decoded h) →
            (out : List ℕ) × Holds self.new decoded (with_out h out) × (has_settled (with_out h out) ≡ false) × Appends start (K.written sink.new) (planes_out decoded (with_out h out))) }
        ensures front { OnErr result ((decoded : List Decoded) (h : History) (start : Option (List ℕ)) → Holds self.old decoded h →
            Appends start (K.written sink.old) (planes_out decoded h) →
            (out : List ℕ) × Holds self.new decoded (with_out h out) × AppendsFront start (K.written sink.new) (planes_out decoded (with_out h out))) }
        ensures count { self.new.count ≡ self.old.count }
        ensures cause { HasCause (IsErrOf result Exit.WriteFault) (K.faults sink.old) (K.faults sink.new) }
        ensures faultless { OnOk result (K.faults sink.new ≡ K.faults sink.old) }
        ensures exits { IfErr result (λ exit. (exit ≡ Exit.WriteFault) ⊎ (exit ≡ Exit.OutOfMemory)) }
        ensures stops { IfErr result (λ exit. StopsWriting exit
            (sink_state (K.written sink.old) (K.faults sink.old) (K.written_at_fault sink.old))
            (sink_state (K.written sink.new) (K.faults sink.new) (K.written_at_fault sink.new))) }
    {
        while let Some(samples) = self.next_out() {
            write_picture(sink, &samples)?;
        }
        Ok(())
    }

    // The next picture whose turn is settled, which is held no longer.
    fn next_out(&mut self) -> Option<Arc<Picture>>
        requires { (decoded : List Decoded) × ((h : History) × Holds self.old decoded h) }
        ensures none { IfNone result ((decoded : List Decoded) (h : History) → Holds self.old decoded h → (has_settled h ≡ false) × Holds self.new decoded h) }
        ensures next { IfSome result (λ samples. (decoded : List Decoded) (h : History) → Holds self.old decoded h → IsOut self.new decoded h (arc_value samples)) }
        ensures count { self.new.count ≡ self.old.count }
        ensures fewer { OnSome result (vec_len self.new.held < vec_len self.old.held) }
    {
        let number = self.waiting.pop()?;
        let place = self.held.iter().position(|held| held.number == number)?;
        let Held { number: _, samples } = self.held.remove(place);
        Some(samples)
    }
}

// Writes the planes of a picture.
fn write_picture<K: Sink>(sink: &mut K, picture: &Picture) -> Result<(), Exit>
    ensures written { OnOk result (Appends (K.written sink.old) (K.written sink.new) (planes_of picture.now)) }
    ensures front { AppendsFront (K.written sink.old) (K.written sink.new) (planes_of picture.now) }
    ensures cause { HasCause (IsErrOf result Exit.WriteFault) (K.faults sink.old) (K.faults sink.new) }
    ensures faultless { OnOk result (K.faults sink.new ≡ K.faults sink.old) }
    ensures exits { IfErr result (λ exit. (exit ≡ Exit.WriteFault) ⊎ (exit ≡ Exit.OutOfMemory)) }
    ensures stops { IfErr result (λ exit. StopsWriting exit
        (sink_state (K.written sink.old) (K.faults sink.old) (K.written_at_fault sink.old))
        (sink_state (K.written sink.new) (K.faults sink.new) (K.written_at_fault sink.new))) }
{
    write_all(sink, picture.y.samples())?;
    write_all(sink, picture.cb.samples())?;
    write_all(sink, picture.cr.samples())?;
    Ok(())
}
