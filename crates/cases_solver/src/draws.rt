// Numbers that look drawn, and are the same in each run.
ghost use Rattle.std.specs.Prelude.{◌≤◌};

/// The state from which the next number comes; it isn't 0.
#[derive(Drop)]
pub struct Draws {
    state: u64,
}

impl Draws {
    /// The numbers of a seed.
    pub fn of(seed: u32) -> Draws {
        Draws {
            state: (seed as u64) << 32 | 0x9e37_79b9,
        }
    }

    /// A number below `n`.
    pub fn below(&mut self, n: u32) -> u32
        requires { 1 ≤ n }
    {
        self.state ^= self.state << 13;
        self.state ^= self.state >> 7;
        self.state ^= self.state << 17;
        ((self.state >> 32) as u32) % n
    }
}
