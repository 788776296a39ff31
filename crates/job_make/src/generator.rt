//! The generator of the numbers that a made job consists of.

ghost use Rattle.std.specs.Prelude.{◌≡◌, ◌≤◌};
ghost use Rattle.job_make.specs.Generator.{state_after, draw};

/// The multiplier of Knuth's MMIX generator.
const MULTIPLIER: u64 = 6364136223846793005;

/// Its increment.
const INCREMENT: u64 = 1442695040888963407;

/// A linear congruential generator mod 2^64, of which a draw gives the upper 31 bits.
#[derive(Drop)]
pub(crate) struct Generator {
    pub(crate) state: u64,
}

impl Generator {
    /// Draws a number below a bound.
    #[tactic(auto, using(crate::proofs::DrawnOps::stepped), unfolding(crate::specs::Generator::number_below))]
    pub(crate) fn draw(&mut self, bound: u32) -> u32
        requires { 1 ≤ bound }
        ensures number { result ≡ draw 1 bound self.old.state }
        ensures state { self.new.state ≡ state_after 1 self.old.state }
    {
        self.state = self.state.wrapping_mul(MULTIPLIER).wrapping_add(INCREMENT);
        ((self.state >> 33) % u64::from(bound)) as u32
    }
}
