//! How far a cost may be above a bound.

ghost use Rattle.std.specs.Prelude.{◌≡◌, ◌∷◌, [], OnOk, IfOk, IfErr};
ghost use Rattle.exact_num.specs.Rational.{minus};
ghost use Rattle.exact_num.specs.Value.{value_of};
ghost use Rattle.certificate_checker.specs.Conditions.{AllPass};
ghost use Rattle.certificate_checker.specs.Gaps.{Within, gap_condition};
ghost use Rattle.certificate_checker.specs.Halts.{IsHalt};
ghost use Rattle.certificate_checker.specs.Verdicts.{IsVerdict, OnYes, OnNo};

use crate::numbers::absolute;
use crate::verdicts::{Halt, Rejection, Verdict, verdict_of};
use exact_num::{Frac, cmp_frac, mul, ratio, sub};
use row_core::Place;

/// Whether a cost is above a bound by at most so many millionths of the bound's absolute value. `Yes` and `GapPassed` carry
/// the cost less the bound.
pub fn check_gap(cost: Frac, bound: Frac, ppm: u32) -> Verdict
    ensures answer { IsVerdict (gap_condition (value_of cost) (value_of bound) ppm ∷ []) (minus (value_of cost) (value_of bound)) result }
    ensures yes { OnYes result (Within (value_of cost) (value_of bound) ppm) }
    ensures no { OnNo result (¬ (Within (value_of cost) (value_of bound) ppm)) }
{
    verdict_of(gap_of(cost, bound, ppm))
}

/// The cost less the bound, if it is allowed. What is allowed is computed only where the cost is above the bound.
fn gap_of(cost: Frac, bound: Frac, ppm: u32) -> Result<Frac, Halt>
    ensures passed { OnOk result (AllPass (gap_condition (value_of cost) (value_of bound) ppm ∷ [])) }
    ensures value { IfOk result (λ gap. value_of gap ≡ minus (value_of cost) (value_of bound)) }
    ensures halted { IfErr result (IsHalt (gap_condition (value_of cost) (value_of bound) ppm ∷ [])) }
{
    let Ok(gap) = sub(cost, bound) else {
        return Err(Halt::Width(Place::SumGap));
    };
    if gap.num <= 0 {
        return Ok(gap);
    }
    let Ok(allowed) = mul(absolute(bound), ratio(i128::from(ppm), 1_000_000)) else {
        return Err(Halt::Width(Place::SumGap));
    };
    if cmp_frac(gap, allowed).is_le() {
        Ok(gap)
    } else {
        Err(Halt::No(Rejection::GapPassed(gap)))
    }
}
