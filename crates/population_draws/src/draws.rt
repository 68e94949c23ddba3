//! A stream of draws.

ghost use Rattle.std.specs.Prelude.{◌≤◌, IsPermutation};
ghost use Rattle.population_draws.specs.Drawn.{IsDrawnFrom};

use crate::skewed::nurand;
use rand::RngExt;
use rand::seq::SliceRandom;
use rand_pcg::Lcg64Xsh32;

/// Draws that follow from a seed and the number of a stream: PCG XSH RR 64/32 (O'Neill 2014). Two streams of one seed
/// differ. No draw takes memory.
#[derive(Drop)]
pub struct Draws {
    generator: Lcg64Xsh32,
}

impl Draws {
    /// The stream of this number, from its begin.
    pub fn new(seed: u64, stream: u64) -> Draws {
        Draws {
            generator: Lcg64Xsh32::new(seed, stream),
        }
    }

    /// A number from low to high, each as likely as the others.
    pub fn number(&mut self, low: u32, high: u32) -> u32
        requires { low ≤ high }
        ensures { IsDrawnFrom low high result }
    {
        self.generator.random_range(low..=high)
    }

    /// NURand(A, x, y) with the constant C (TPC-C 2.1.6): two draws, from 0 to A and then from x to y.
    pub fn skewed(&mut self, spread: u32, x: u32, y: u32, constant: u32) -> u32
        requires { x ≤ y }
        ensures { IsDrawnFrom x y result }
    {
        let a = self.number(0, spread);
        let b = self.number(x, y);
        nurand(a, b, x, y, constant)
    }

    /// Whether a number from 1 to `of` is at most `chance`.
    pub fn happens(&mut self, chance: u32, of: u32) -> bool
        requires { 1 ≤ of }
    {
        self.number(1, of) <= chance
    }

    /// Brings the items into an order that is drawn, each as likely as the others. Takes a draw for several items.
    pub fn shuffle<T>(&mut self, items: &mut [T])
        ensures { IsPermutation items.old items.new }
    {
        items.shuffle(&mut self.generator);
    }
}
