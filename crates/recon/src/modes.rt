// The prediction modes of Intra4x4 blocks. H.264, 8.3.1.1.
ghost use Rattle.std.specs.Prelude.{◌≡◌, ◌<◌, All, option_map, take, slice_index};
ghost use Rattle.recon.specs.Conditions.{IsKindRange, IsModeRange};
ghost use Rattle.recon.specs.Modes.{above_mode, chosen, first_modes, left_mode, lesser, modes_of, predicted_mode};

use cb_types::{MbKind, Mode, block_x, block_y};
use motion::block_at;

/// The prediction modes of a macroblock's 4x4 luma blocks, in the order of their numbers, as they count
/// for its neighbours: 2 for those of other kinds than Intra4x4.
#[derive(Clone, Copy)]
pub struct Modes(pub [u32; 16]);

impl Modes {
    pub const DC: Modes = Modes([2; 16]);
}

/// The modes of a macroblock, from those of the macroblocks to the left and above, which are None where
/// they aren't available for intra prediction.
#[tactic(auto, unfolding(crate::specs::Modes::modes_of))]
pub fn modes_of(kind: &MbKind, left: Option<Modes>, above: Option<Modes>) -> Modes
    requires { IsKindRange kind.now }
    ensures { result.0 ≡ modes_of kind.now (option_map (λ modes. modes.0) left) (option_map (λ modes. modes.0) above) }
{
    match kind {
        MbKind::Intra4 { modes, .. } => intra4_modes(modes, &left, &above),
        _ => Modes::DC,
    }
}

fn intra4_modes(spelled: &[Mode; 16], left: &Option<Modes>, above: &Option<Modes>) -> Modes
    requires { All IsModeRange spelled.now }
    ensures { result.0 ≡ first_modes spelled.now (option_map (λ modes. modes.0) left.now) (option_map (λ modes. modes.0) above.now) 16 }
{
    let mut modes = [0; 16];
    for block in 0..16 {
        let predicted = predicted_mode(&modes, left, above, block);
        modes[block as usize] = chosen(spelled[block as usize], predicted);
    }
    Modes(modes)
}

fn predicted_mode(modes: &[u32; 16], left: &Option<Modes>, above: &Option<Modes>, block: u32) -> u32
    requires { block < 16 }
    ensures { result ≡ predicted_mode (option_map (λ modes. modes.0) left.now) (option_map (λ modes. modes.0) above.now) modes.now block }
{
    lesser(
        left_mode(modes, left, block),
        above_mode(modes, above, block),
    )
}

fn left_mode(modes: &[u32; 16], left: &Option<Modes>, block: u32) -> Option<u32>
    requires { block < 16 }
    ensures { result ≡ left_mode (option_map (λ modes. modes.0) left.now) modes.now block }
{
    let (column, row) = (block_x(block), block_y(block));
    if column == 0 {
        mode_in(left, block_at(3, row))
    } else {
        Some(modes[block_at(column - 1, row) as usize])
    }
}

fn above_mode(modes: &[u32; 16], above: &Option<Modes>, block: u32) -> Option<u32>
    requires { block < 16 }
    ensures { result ≡ above_mode (option_map (λ modes. modes.0) above.now) modes.now block }
{
    let (column, row) = (block_x(block), block_y(block));
    if row == 0 {
        mode_in(above, block_at(column, 3))
    } else {
        Some(modes[block_at(column, row - 1) as usize])
    }
}

fn lesser(left: Option<u32>, above: Option<u32>) -> u32
    ensures { result ≡ lesser left above }
{
    match (left, above) {
        (Some(left), Some(above)) => left.min(above),
        _ => 2,
    }
}

fn mode_in(modes: &Option<Modes>, block: u32) -> Option<u32>
    requires { block < 16 }
    ensures { result ≡ option_map (λ modes. slice_index modes.0 block) modes.now }
{
    match modes {
        Some(modes) => Some(modes.0[block as usize]),
        None => None,
    }
}

fn chosen(spelled: Mode, predicted: u32) -> u32
    requires { IsModeRange spelled }
    ensures { result ≡ chosen spelled predicted }
{
    match spelled {
        Mode::Predicted => predicted,
        Mode::Remaining(mode) if mode < predicted => mode,
        Mode::Remaining(mode) => mode + 1,
    }
}
