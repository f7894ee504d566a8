// One call with its arguments, as the loop that makes it asks the core. Each call of the driver has a type for
// this, which says which call it is.
ghost use Rattle.std.specs.Prelude.{◌≡◌, ℕ, length};
ghost use Rattle.driver_core.specs.Answered.{Calls, UnlessDone};
ghost use Rattle.driver_model.specs.declared.calls.Call.{Call};
ghost use Rattle.driver_model.specs.declared.replies.Answer.{Answer};
ghost use Rattle.driver_model.specs.declared.replies.Answer.TheVariants.{Bytes};

use driver_core::{Core, CoreAnswer};

/// A call that answers by its value alone.
pub trait Ask {
    type Value;

    /// The call that it is.
    ghost call: { Self → Call };

    /// The answer in the history for which a value stands.
    ghost answer: { Self.Value → Answer };

    fn ask(&self, core: &mut Core) -> CoreAnswer<Self::Value>
        ensures { Calls core.old core.new (call self.now) answer result };
}

/// A call that fills the caller's buffer.
pub trait Fill {
    /// The call that it is, with a buffer of this length.
    ghost call: { Self → ℕ → Call };

    fn fill(&self, core: &mut Core, out: &mut [u8]) -> CoreAnswer<()>
        ensures calls { Calls core.old core.new (call self.now (length out.old)) (λ _. Bytes out.new) result }
        ensures stays { UnlessDone result (out.new ≡ out.old) };
}
