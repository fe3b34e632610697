// Numbers that look random.

ghost use Rattle.std.specs.Prelude.{◌≡◌, ◌<◌};
ghost use Rattle.separate_decks.specs.Draws.{skip, draw};

use std::marker::Model;

/// A state that numbers are drawn from. Contracts see the state.
#[derive(Drop)]
pub struct Draws {
    state: u64,
}

impl Model for Draws {
    ghost use Rattle.std.specs.Prelude.{ℕ};

    ghost Value = { ℕ };

    ghost view = { λ d. d.state };
}

impl Draws {
    /// Begins with a state.
    pub fn new(state: u64) -> Draws
        ensures { result ≡ state }
    {
        Draws { state }
    }

    /// The next number, below a bound: what the upper 31 bits of the next state leave when they are divided by it.
    pub fn draw(&mut self, below: u32) -> u32
        requires { 0 < below }
        ensures value { result ≡ draw self.old 1 below }
        ensures low { result < below }
        ensures state { self.new ≡ skip 1 self.old }
    {
        self.state = self
            .state
            .wrapping_mul(6_364_136_223_846_793_005)
            .wrapping_add(1_442_695_040_888_963_407);
        (self.state / 8_589_934_592 % below as u64) as u32
    }
}
