// The score of an estimate under a pressure vector. Nothing is refused.
#![tactic(auto)]

ghost use Rattle.std.specs.Prelude.{◌≡◌};
ghost use Rattle.scores.specs.Score.{score_of};

use candidate_records::CandidateEstimate;
use kinds::vector::PressureVector;

const AGE_BONUS_WEIGHT: f64 = 0.01;

// Each step is one operation of binary64, the sum from the left.
pub fn cause_aware_score(vector: PressureVector, est: CandidateEstimate) -> f64
    ensures { result ≡ score_of vector est }
{
    let root = arith::root::sqrt(est.estimated_rewrite_bytes.max(1));
    let log = arith::logarithm::ln_1p(est.age);
    let benefit = vector.l0 * est.l0_relief
        + vector.deep_debt * est.debt_relief
        + vector.read * est.read_relief
        + log * AGE_BONUS_WEIGHT;
    benefit / root
}
