// Numbers drawn one behind the other.
ghost use Rattle.std.specs.Prelude.{◌≡◌, ◌<◌, ◌≤◌, ◌^◌, unsigned_abs};
ghost use Rattle.cb_maker.specs.Draws.{draw, draw_around, next_state};

/// The state from which the next number is drawn.
#[derive(Drop)]
pub struct Draws {
    state: u64,
}

impl Draws {
    pub fn new(number: u32) -> Draws
        ensures { result.state ≡ number }
    {
        Draws {
            state: u64::from(number),
        }
    }

    /// A number below `n`.
    pub fn draw(&mut self, n: u32) -> u32
        requires { 1 ≤ n }
        ensures drawn { draw n self.old.state ≡ (result, self.new.state) }
        ensures below { result < n }
    {
        self.step();
        (self.state >> 33) as u32 % n
    }

    /// A number from `-most` to `most`.
    pub fn draw_around(&mut self, most: u32) -> i32
        requires { most ≤ 10 }
        ensures { draw_around most self.old.state ≡ (result, self.new.state) }
    {
        let number = self.draw(2 * most + 1);
        number as i32 - most as i32
    }

    fn step(&mut self)
        ensures { self.new.state ≡ next_state self.old.state }
    {
        self.state = self
            .state
            .wrapping_mul(6364136223846793005)
            .wrapping_add(1442695040888963407);
    }
}
