// The prediction of a motion vector from its neighbours (H.264, 8.4.1.1 and 8.4.1.3).
ghost use Rattle.std.specs.Prelude.{◌≡◌, ◌≤◌};
ghost use Rattle.mv_pred.specs.Prediction.{by_reference, corner, directional, median, median_prediction, median_vector, predicted, skipped};

use super::near::Near;
use cb_types::Vector;

/// The predicted vector of a partition that refers to an entry of the list, from its neighbours A (left),
/// B (above), C (above right) and D (above left). `shape` is 0 for the median alone, 1 for 16x8 and 2 for
/// 8x16; `index` is 0 or 1, the number of the part, and 0 for the median.
#[tactic(auto, unfolding(crate::specs::Prediction::predicted))]
pub fn predict(shape: u32, index: u32, reference: u32, a: Near, b: Near, c: Near, d: Near) -> Vector
    requires shape { shape ≤ 2 }
    requires index { index ≤ 1 }
    ensures { result ≡ predicted shape index reference a b c d }
{
    let c = corner(c, d);
    let side = match (shape, index) {
        (1, 0) => b,
        (1, _) => a,
        (2, 0) => a,
        (2, _) => c,
        _ => return median_prediction(reference, a, b, c),
    };
    if side.has_reference(reference) {
        side.vector()
    } else {
        median_prediction(reference, a, b, c)
    }
}

/// The vector of a skipped macroblock, P_Skip, from the neighbours of the macroblock.
#[tactic(auto, unfolding(crate::specs::Prediction::skipped))]
pub fn skip(a: Near, b: Near, c: Near, d: Near) -> Vector
    ensures { result ≡ skipped a b c d }
{
    if a.is_missing() || b.is_missing() || a.is_still() || b.is_still() {
        Vector { x: 0, y: 0 }
    } else {
        median_prediction(0, a, b, corner(c, d))
    }
}

fn corner(c: Near, d: Near) -> Near
    ensures { result ≡ corner c d }
{
    if c.is_missing() { d } else { c }
}

fn median_prediction(entry: u32, a: Near, b: Near, c: Near) -> Vector
    ensures { result ≡ median_prediction entry a b c }
{
    if b.is_missing() && c.is_missing() && !a.is_missing() {
        by_reference(entry, a, a, a)
    } else {
        by_reference(entry, a, b, c)
    }
}

fn by_reference(entry: u32, a: Near, b: Near, c: Near) -> Vector
    ensures { result ≡ by_reference entry a b c }
{
    match (
        a.has_reference(entry),
        b.has_reference(entry),
        c.has_reference(entry),
    ) {
        (true, false, false) => a.vector(),
        (false, true, false) => b.vector(),
        (false, false, true) => c.vector(),
        _ => median_vector(a.vector(), b.vector(), c.vector()),
    }
}

fn median_vector(a: Vector, b: Vector, c: Vector) -> Vector
    ensures { result ≡ median_vector a b c }
{
    Vector {
        x: median(a.x, b.x, c.x),
        y: median(a.y, b.y, c.y),
    }
}

fn median(x: i32, y: i32, z: i32) -> i32
    ensures { result ≡ median x y z }
{
    x.min(y).max(x.max(y).min(z))
}
