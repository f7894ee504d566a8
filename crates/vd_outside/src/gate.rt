// Places at which a running job can be stopped.

/// Is passed by a running job at each of its numbered places. A pass always returns: a gate that holds a job
/// counts its turns up to a limit.
pub trait Gate {
    /// The job comes to the place `at`.
    fn pass(&mut self, at: u32);
}

/// A gate that lets every job through at once.
#[derive(Clone, Copy, Debug, PartialEq, Eq)]
pub struct OpenGate;

impl Gate for OpenGate {
    ghost use Rattle.std.specs.Prelude.{◌≡◌};

    fn pass(&mut self, _at: u32)
        ensures { self.new ≡ self.old }
    {}
}
