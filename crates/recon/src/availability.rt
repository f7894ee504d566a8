// Which neighbours intra prediction may use.
ghost use Rattle.std.specs.Prelude.{◌≡◌, ◌<◌, length};
ghost use Rattle.std.specs.Option.{ForSome};
ghost use Rattle.motion.specs.Around.{AreBefore};
ghost use Rattle.recon.specs.Availability.{usable, usable_around};

use cb_types::Macroblock;
use motion::{Around, is_intra};

/// The neighbours that intra prediction may use (H.264, 8.3.1.2): with constrained_intra_pred_flag, only
/// those that are intra themselves.
pub fn usable_around(constrained: bool, macroblocks: &[Macroblock], around: &Around) -> Around
    requires { AreBefore (length macroblocks.now) around.now }
    ensures { result ≡ usable_around constrained macroblocks.now around.now }
{
    Around {
        left: usable(constrained, macroblocks, around.left),
        above: usable(constrained, macroblocks, around.above),
        above_right: usable(constrained, macroblocks, around.above_right),
        above_left: usable(constrained, macroblocks, around.above_left),
    }
}

fn usable(constrained: bool, macroblocks: &[Macroblock], number: Option<u32>) -> Option<u32>
    requires { ForSome number (λ k. k < length macroblocks.now) }
    ensures { result ≡ usable constrained macroblocks.now number }
{
    match number {
        Some(k) => {
            if constrained && !is_intra(&macroblocks[k as usize].kind) {
                None
            } else {
                number
            }
        }
        None => None,
    }
}
