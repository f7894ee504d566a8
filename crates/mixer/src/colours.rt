// The rows of a matrix in the order in which their colours stand in memory.
ghost use Rattle.std.specs.Prelude.{◌≡◌, ◌<◌, ◌≤◌, ◌^◌, if◌then◌else◌, ◌==◌, unsigned_abs, IsTrue};
ghost use Rattle.mixer.specs.Colours.{AreSmall, IsRow, IsSmall};
ghost use Rattle.mixer.specs.declared.TheConstants as formats;

use super::B8G8R8A8;

// One row of the matrix.
#[derive(Clone, Copy)]
pub(crate) struct Weights {
    pub of_y: i32,
    pub of_cb: i32,
    pub of_cr: i32,
    pub constant: i32,
}

impl Weights {
    fn of(matrix: &[i32; 12], row: usize) -> Weights
        requires { row < 3 }
        ensures { IsRow matrix.now row result }
    {
        Weights {
            of_y: matrix[4 * row],
            of_cb: matrix[4 * row + 1],
            of_cr: matrix[4 * row + 2],
            constant: matrix[4 * row + 3],
        }
    }

    // Whether its sums stay in 32 bits.
    fn is_small(&self) -> bool
        ensures { IsTrue result → IsSmall self.now }
    {
        self.of_y.unsigned_abs() <= 1 << 20
            && self.of_cb.unsigned_abs() <= 1 << 20
            && self.of_cr.unsigned_abs() <= 1 << 20
            && self.constant.unsigned_abs() <= 1 << 30
    }
}

// The rows of the colours that stand in the first three bytes of a pixel.
#[derive(Clone, Copy)]
pub(crate) struct Colours {
    pub first: Weights,
    pub second: Weights,
    pub third: Weights,
}

impl Colours {
    pub(crate) fn of(matrix: &[i32; 12], format: u32) -> Colours
        ensures first { IsRow matrix.now (if format == formats.B8G8R8A8 then 2 else 0) result.first }
        ensures second { IsRow matrix.now 1 result.second }
        ensures third { IsRow matrix.now (if format == formats.B8G8R8A8 then 0 else 2) result.third }
    {
        let red = Weights::of(matrix, 0);
        let green = Weights::of(matrix, 1);
        let blue = Weights::of(matrix, 2);
        if format == B8G8R8A8 {
            Colours {
                first: blue,
                second: green,
                third: red,
            }
        } else {
            Colours {
                first: red,
                second: green,
                third: blue,
            }
        }
    }

    // Whether the sums of all three stay in 32 bits.
    pub(crate) fn is_small(&self) -> bool
        ensures { IsTrue result → AreSmall self.now }
    {
        self.first.is_small() && self.second.is_small() && self.third.is_small()
    }
}
