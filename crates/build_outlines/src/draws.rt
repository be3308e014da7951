// Numbers that stand for chance.
ghost use Rattle.std.specs.Prelude.{◌≤◌};

/// Numbers, each made from the one before it.
#[derive(Clone, Copy)]
pub struct Draws {
    pub state: u32,
}

impl Draws {
    /// A number below this one, or 0.
    pub fn below(&mut self, bound: u32) -> u32
        ensures { result ≤ bound }
    {
        self.state = self.state.wrapping_mul(1_103_515_245).wrapping_add(12_345);
        if bound == 0 {
            return 0;
        }
        (self.state >> 16) % bound
    }
}
