// The square root of a u64, of its value as an f64, rounded once.
ghost use Rattle.std.specs.Prelude.{◌≡◌};
ghost use Rattle.arith.specs.Root.{root_of};

use super::whole::of_u64;

#[tactic(auto, using(crate::proofs::SquareRoot::root_same))]
pub fn sqrt(n: u64) -> f64
    ensures { result ≡ root_of n }
{
    of_u64(n).sqrt()
}
