//! Checks of plans and of directions.

ghost use Rattle.std.specs.Prelude.{ℕ, ℤ, pos};
ghost use Rattle.exact_num.specs.Value.{value_of};
ghost use Rattle.row_core.specs.declared.Var.{Var};
ghost use Rattle.row_core.specs.Order.{var_cmp};
ghost use Rattle.row_core.specs.Plans.{value_in};
ghost use Rattle.row_core.specs.Values.{IsOver};
ghost use Rattle.certificate_checker.specs.Certificates.{Descends, CostsLess};
ghost use Rattle.certificate_checker.specs.Costs.{model_cost, cost_value, cost_of};
ghost use Rattle.certificate_checker.specs.CostNumbers.{number_of, IsCost};
ghost use Rattle.certificate_checker.specs.PlanChecks.{plan_conditions, direction_conditions};
ghost use Rattle.certificate_checker.specs.Plans.{AreValuesOver, MeetsAll};
ghost use Rattle.certificate_checker.specs.Verdicts.{IsVerdict, IfYes, OnYes, OnNo};

use crate::costs::CostNumbers;
use crate::values::{Subject, check_values};
use crate::verdicts::{Verdict, verdict_of};
use row_core::{Plan, Row, Var};

/// Whether every row holds of a plan and its signs are right: the rows in order, then the signs in the order of
/// variables. `Yes` carries the cost, the sum of all TotalDiscountedCost. `Violates` carries the first row that doesn't
/// hold, with the difference of its sides, `WrongSign` the first variable below 0 that must be at least 0.
pub fn check_plan(rows: &[Row], vars: &[Var], plan: &Plan) -> Verdict
    ensures answer { IsVerdict (plan_conditions model_cost rows.now vars.now plan.now) (cost_value model_cost vars.now (value_in var_cmp plan.now)) result }
    ensures yes { (q : ℕ) (x : Var → ℤ) → AreValuesOver q x plan.now
        → IfYes result (λ cost. MeetsAll rows.now vars.now q x × IsOver (pos q) (value_of cost) (cost_of model_cost vars.now x)) }
    ensures no { (q : ℕ) (x : Var → ℤ) → AreValuesOver q x plan.now → OnNo result (¬ (MeetsAll rows.now vars.now q x)) }
{
    verdict_of(check_values(rows, vars, &CostNumbers::Model, plan, Subject::Plan))
}

/// Whether a cost falls without end along a direction: with right sides 0 the rows in order, then the signs in the order of
/// variables, and last that the cost of the direction is below 0. `Yes` carries that cost.
pub fn check_direction(
    rows: &[Row],
    vars: &[Var],
    cost: &CostNumbers<'_>,
    direction: &Plan,
) -> Verdict
    requires { IsCost cost.now }
    ensures answer { IsVerdict (direction_conditions (number_of cost.now) rows.now vars.now direction.now) (cost_value (number_of cost.now) vars.now (value_in var_cmp direction.now)) result }
    ensures yes { (q : ℕ) (d : Var → ℤ) → AreValuesOver q d direction.now
        → IfYes result (λ sum. Descends (number_of cost.now) rows.now vars.now d × IsOver (pos q) (value_of sum) (cost_of (number_of cost.now) vars.now d)) }
    ensures no { (q : ℕ) (d : Var → ℤ) → AreValuesOver q d direction.now → OnNo result (¬ (Descends (number_of cost.now) rows.now vars.now d)) }
    ensures endless { (q : ℕ) (x : Var → ℤ) (n : ℤ) → MeetsAll rows.now vars.now q x → OnYes result (CostsLess (number_of cost.now) rows.now vars.now n) }
{
    // The values are fractions, so they are whole numbers over one denominator.
    let _values = direction.entries();
    verdict_of(check_values(rows, vars, cost, direction, Subject::Direction))
}
