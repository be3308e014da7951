// Numbers that stand for chance.
ghost use Rattle.std.specs.Prelude.{◌<◌};

/// Numbers, each made from the one before it.
#[derive(Clone, Copy)]
pub struct Draws {
    state: u32,
}

impl Draws {
    /// The numbers of a seed.
    pub fn new(seed: u32) -> Draws {
        let state = seed.wrapping_mul(2_654_435_761).wrapping_add(97);
        let mut draws = Draws { state };
        draws.step();
        draws
    }

    fn step(&mut self) {
        self.state = self.state.wrapping_mul(1_103_515_245).wrapping_add(12_345);
    }

    /// A number below this one.
    pub fn below(&mut self, bound: u32) -> u32
        requires { 0 < bound }
        ensures { result < bound }
    {
        self.step();
        (self.state >> 12) % bound
    }

    /// Whether one of so many comes.
    pub fn one_in(&mut self, count: u32) -> bool
        requires { 0 < count }
    {
        self.below(count) == 0
    }
}
