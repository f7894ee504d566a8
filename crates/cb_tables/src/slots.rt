ghost use Rattle.std.specs.Prelude.{◌+◌, ◌≤◌};
ghost use Rattle.cb_tables.specs.Slots.{IsSlot};

// Where a finder's table has the only code that can begin a window.
#[derive(Clone, Copy)]
pub(crate) struct Slot {
    // the leading zeros of the window, up to a limit
    pub(crate) leading: u32,
    // the bits behind the first 1
    pub(crate) next: u32,
}

#[inline]
pub(crate) fn slot_of(window: u32, limit: u32, bits: u32) -> Slot
    requires { limit + bits ≤ 31 }
    ensures { IsSlot limit bits window result.leading result.next }
{
    let leading = window.leading_zeros().min(limit);
    let next = (window >> (31 - leading - bits)) % (1 << bits);
    Slot { leading, next }
}
