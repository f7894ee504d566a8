// A neighbouring partition.

use cb_types::Vector;

/// A neighbour of a macroblock partition (H.264, 8.4.1.3.2): it isn't available, is intra predicted, or has
/// an entry of the reference list and a motion vector.
#[derive(Clone, Copy, Debug, PartialEq, Eq)]
pub enum Near {
    Missing,
    Intra,
    Inter { reference: u32, vector: Vector },
}

impl Near {
    ghost use Rattle.std.specs.Prelude.{◌≡◌};
    ghost use Rattle.mv_pred.specs.Neighbours.{has_reference, is_missing, is_still, vector_of};

    pub(crate) fn is_missing(&self) -> bool
        ensures { result ≡ is_missing self.now }
    {
        matches!(self, Near::Missing)
    }

    // Whether it refers to this entry.
    pub(crate) fn has_reference(&self, entry: u32) -> bool
        ensures { result ≡ has_reference self.now entry }
    {
        match self {
            Near::Inter { reference, .. } => *reference == entry,
            _ => false,
        }
    }

    // Its vector, 0 where it has none.
    pub(crate) fn vector(&self) -> Vector
        ensures { result ≡ vector_of self.now }
    {
        match self {
            Near::Inter { vector, .. } => *vector,
            _ => Vector { x: 0, y: 0 },
        }
    }

    // Whether it is the first entry's sample at the same place.
    pub(crate) fn is_still(&self) -> bool
        ensures { result ≡ is_still self.now }
    {
        let vector = self.vector();
        self.has_reference(0) && vector.x == 0 && vector.y == 0
    }
}
