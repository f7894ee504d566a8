/// Why the bytes aren't a parameter set that this decoder takes.
#[derive(Clone, Copy, Debug, PartialEq, Eq)]
pub enum SetFault {
    /// An element of a sequence set isn't spelled or is out of its range, or the trailing bits aren't there.
    BadSps,
    /// The same of a picture set.
    BadPps,
    /// The set uses what the Constrained Baseline profile hasn't.
    NotBaseline,
    /// A sequence set of pictures that are larger than this decoder takes.
    TooLarge,
}
