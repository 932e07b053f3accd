//! Numbers drawn one after another.
ghost use Rattle.std.specs.Prelude.{◌≡◌, ◌<◌, ◌%◌, ◌/◌};
ghost use Rattle.script_gen.specs.Draws.{next};

use std::marker::Model;

/// Where numbers are drawn from. A contract sees the state.
#[derive(Drop)]
pub struct Draws {
    state: u64,
}

impl Model for Draws {
    ghost use Rattle.std.specs.Prelude.{ℕ, ◌<◌, ◌^◌};

    ghost Value = { ℕ };

    ghost view = { λ d. d.state };

    ghost invariant = { λ d. d.state < 2 ^ 32 };
}

impl Draws {
    /// Draws that begin with this state.
    pub fn from(number: u32) -> Draws
        ensures { result ≡ number }
    {
        Draws {
            state: number as u64,
        }
    }

    /// The next number, which is below the bound.
    pub fn draw(&mut self, bound: u64) -> u64
        requires { 0 < bound }
        ensures state { self.new ≡ next self.old }
        ensures value { result ≡ next self.old / 65536 % bound }
        ensures below { result < bound }
    {
        self.state = (self.state * 1103515245 + 12345) % 2147483648;
        self.state / 65536 % bound
    }
}
