//! A limit on the cost near the least cost.

ghost use Rattle.std.specs.Prelude.{◌≡◌, List, IfOk, is_ok};
ghost use Rattle.row_problem.specs.Prelude.{all_fit, Rational, value_of, Row, Var, absolute, IsPlan};
ghost use Rattle.span_finder.specs.Slacks.{slack_formed, slack_limit};
ghost use Rattle.span_finder.specs.Spans.{HasNearBest};

use exact_num::{Frac, TooWide, add, mul, ratio};

/// The cost, and so many millionths of its absolute value more: the fraction of the millionths, its product with the absolute
/// value, and the sum of the cost and that. `TooWide` comes exactly where a number that is formed doesn't fit. A plan of this cost
/// costs at most the limit.
pub fn slack_limit(cost: Frac, slack: u32) -> Result<Frac, TooWide>
    ensures refused { is_ok result ≡ all_fit (slack_formed (value_of cost) slack) }
    ensures limit { IfOk result (λ limit. value_of limit ≡ slack_limit (value_of cost) slack) }
    ensures near { (rows : List Row) (vars : List Var) (plan : List (Var × Rational)) → IsPlan rows vars plan (value_of cost) → IfOk result (λ limit. HasNearBest rows vars (value_of limit)) }
{
    let more = mul(ratio(i128::from(slack), 1_000_000), absolute(cost))?;
    add(cost, more)
}

/// The absolute value.
pub(crate) fn absolute(value: Frac) -> Frac
    ensures { value_of result ≡ absolute (value_of value) }
{
    let num = if value.num < 0 { -value.num } else { value.num };
    Frac {
        num,
        den: value.den,
    }
}
