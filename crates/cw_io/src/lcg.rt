ghost use Rattle.std.specs.Prelude.{◌≡◌};
ghost use Rattle.cw_io.specs.Lcg.{drawn, next_state};

use std::marker::Model;

const MULTIPLIER: u64 = 6_364_136_223_846_793_005;

const INCREMENT: u64 = 1_442_695_040_888_963_407;

/// A linear congruential generator with the constants of Knuth's MMIX. Callers see it as its state.
#[derive(Drop, Debug)]
pub struct Lcg {
    state: u64,
}

impl Model for Lcg {
    ghost use Rattle.std.specs.Prelude.{ℕ};

    ghost Value = { ℕ };

    ghost view = { λ g. g.state };
}

impl Lcg {
    /// Returns the generator that begins with `state`, which is not drawn itself.
    pub fn new(state: u64) -> Lcg
        ensures { result ≡ state }
    {
        Lcg { state }
    }

    /// Draws the next number. The state becomes state * 6364136223846793005 + 1442695040888963407 modulo 2^64, and its
    /// top 32 bits are drawn. The generator and its constants: Donald E. Knuth, The Art of Computer Programming, volume
    /// 2, Seminumerical Algorithms, third edition, 1997, and his MMIX.
    pub fn draw(&mut self) -> u32
        ensures state { self.new ≡ next_state self.old }
        ensures top { result ≡ drawn self.new }
    {
        self.state = self.state.wrapping_mul(MULTIPLIER).wrapping_add(INCREMENT);
        (self.state >> 32) as u32
    }
}
