// Which macroblocks are intra predicted.
ghost use Rattle.std.specs.Prelude.{◌≡◌};
ghost use Rattle.motion.specs.Kinds.{is_intra, is_skip};

use cb_types::MbKind;

/// Whether the kind is an Intra one, I_PCM among them (H.264, Table 7-11).
#[inline]
pub fn is_intra(kind: &MbKind) -> bool
    ensures { result ≡ is_intra kind.now }
{
    matches!(
        kind,
        MbKind::Pcm(_) | MbKind::Intra4 { .. } | MbKind::Intra16 { .. }
    )
}

/// Whether the macroblock is skipped, P_Skip.
#[inline]
pub fn is_skip(kind: &MbKind) -> bool
    ensures { result ≡ is_skip kind.now }
{
    matches!(kind, MbKind::Skip)
}
