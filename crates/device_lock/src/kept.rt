// What a lock asks of its value, and how a call names the item that it logs.
ghost use Rattle.std.specs.Prelude.{ℕ, List, [], Option, None};

use std::marker::Brand;

/// A value that a lock can keep.
pub trait Kept {
    /// What is logged: one event of the history for which the value stands.
    type Item;

    /// The number of the caller whose item it is.
    ghost caller: { Self.Item → List ℕ };

    /// The value stands for this list of items.
    ghost stands: { Self → List Self.Item → Type 0 };

    /// The items of one caller leave nothing open.
    ghost at_rest: { List Self.Item → Type 0 };

    /// Who has logged nothing has left nothing open.
    ghost empty_rests: { at_rest [] };
}

/// Names the item that a call logs, for the proof alone. A call at `Brand` picks it.
pub trait Names<I> {
    ghost item: { Option I };
}

impl<I> Names<I> for Brand {
    ghost item = { None };
}
