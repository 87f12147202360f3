//! The checks of what was found. Where what is found is what the checker asks for, a number that doesn't fit is the one cause of a
//! refusal; else what is refused is what the checker refuses. Plans, directions and gaps take no memory.

ghost use Rattle.std.specs.Prelude.{◌≡◌, ◌≢◌, [], ◌∷◌, ℕ, ℤ, pos, IsTrue, IfErr, IfOk, OnOk};
ghost use Rattle.exact_num.specs.Value.{value_of};
ghost use Rattle.row_core.specs.declared.RowName.{RowName};
ghost use Rattle.row_core.specs.Numbers.{ascends};
ghost use Rattle.row_core.specs.Order.{var_cmp};
ghost use Rattle.row_core.specs.Plans.{value_in};
ghost use Rattle.row_core.specs.Values.{IsOver};
ghost use Rattle.certificate_checker.specs.Certificates.{AreMultipliersOver, BoundsAll, CostsLess, Descends, Proves, bound_of};
ghost use Rattle.certificate_checker.specs.Costs.{cost_of, cost_value, model_cost};
ghost use Rattle.certificate_checker.specs.Gaps.{gap_condition};
ghost use Rattle.certificate_checker.specs.Sums.{HasVariablesOf};
ghost use Rattle.certificate_checker.specs.MultiplierChecks.{bound_conditions, infeasible_conditions};
ghost use Rattle.certificate_checker.specs.PlanChecks.{direction_conditions, plan_conditions};
ghost use Rattle.certificate_checker.specs.Plans.{AreValuesOver, MeetsAll};
ghost use Rattle.certificate_checker.specs.Verdicts.{IfYes, IsVerdict, OnNo, OnYes};
ghost use Rattle.certified_answers.specs.Costs.{weight_of};
ghost use Rattle.certified_answers.specs.Found.{IsFoundBoundFor, IsFoundDescentFor, IsFoundPlan, IsFoundRefutation};
ghost use Rattle.certified_answers.specs.Refusals.{IsRefused, IsWidthOf};
ghost use Rattle.certified_answers.specs.declared.answers.NoAnswer.TheVariants.{Memory};
ghost use Rattle.certified_answers.specs.Worth.{IsBoundFor, IsDescentFor, IsNear, IsPlan, IsRefutation, multiplier_bound};

use crate::answers::NoAnswer;
use crate::costs::{Cost, numbers_of, one_number};
use crate::laws::{multiplier_laws, plan_laws};
use certificate_checker::{
    Verdict, check_bound, check_direction, check_gap, check_infeasible, check_plan,
};
use exact_num::Frac;
use row_core::{Multipliers, Plan, Row, Var};
use std::alloc::Global;

/// The model's cost of a plan that the checker accepts.
pub fn accepted_plan(rows: &[Row], vars: &[Var], plan: &Plan) -> Result<Frac, NoAnswer>
    ensures plan { IfOk result (λ cost. IsPlan rows.now vars.now plan.now (value_of cost)) }
    ensures found { IsFoundPlan rows.now vars.now plan.now → IfErr result (IsWidthOf (plan_conditions model_cost rows.now vars.now plan.now)) }
    ensures refused { IfErr result (IsRefused (plan_conditions model_cost rows.now vars.now plan.now)) }
    ensures enough { IfErr result (λ stop. stop ≢ Memory) }
{
    plan_laws(plan);
    match check_plan(rows, vars, plan) {
        Verdict::Yes(cost) => Ok(cost),
        Verdict::Width(place) => Err(NoAnswer::Width(place)),
        Verdict::No(_) => Err(NoAnswer::Nothing),
    }
}

/// The bound of the cost that the checker accepts of multipliers.
pub fn accepted_bound(
    alloc: Global,
    rows: &[Row],
    vars: &[Var],
    cost: Cost,
    multipliers: &Multipliers,
) -> Result<Frac, NoAnswer>
    requires ascending { IsTrue (ascends var_cmp vars.now) }
    requires listed { HasVariablesOf rows.now vars.now }
    ensures bound { IfOk result (λ bound. IsBoundFor (weight_of cost) rows.now vars.now multipliers.now (value_of bound)) }
    ensures found { IsFoundBoundFor (weight_of cost) rows.now vars.now multipliers.now → IfErr result (IsWidthOf (bound_conditions (weight_of cost) rows.now vars.now multipliers.now)) }
    ensures refused { IfErr result (IsRefused (bound_conditions (weight_of cost) rows.now vars.now multipliers.now)) }
{
    multiplier_laws(multipliers);
    let one = one_number(cost);
    let verdict = check_bound(alloc, rows, vars, &numbers_of(&one), multipliers)?;
    match verdict {
        Verdict::Yes(bound) => Ok(bound),
        Verdict::Width(place) => Err(NoAnswer::Width(place)),
        Verdict::No(_) => Err(NoAnswer::Nothing),
    }
}

/// The checker accepts the gap of a cost above a bound, in millionths of the bound.
pub fn accepted_gap(cost: Frac, bound: Frac, ppm: u32) -> Result<(), NoAnswer>
    ensures near { OnOk result (IsNear (value_of cost) (value_of bound) ppm) }
    ensures found { value_of cost ≡ value_of bound → IfErr result (IsWidthOf (gap_condition (value_of cost) (value_of bound) ppm ∷ [])) }
    ensures refused { IfErr result (IsRefused (gap_condition (value_of cost) (value_of bound) ppm ∷ [])) }
    ensures enough { IfErr result (λ stop. stop ≢ Memory) }
{
    match check_gap(cost, bound, ppm) {
        Verdict::Yes(_) => Ok(()),
        Verdict::Width(place) => Err(NoAnswer::Width(place)),
        Verdict::No(_) => Err(NoAnswer::Nothing),
    }
}

/// The checker accepts that multipliers show that there is no plan.
pub fn accepted_refutation(
    alloc: Global,
    rows: &[Row],
    vars: &[Var],
    multipliers: &Multipliers,
) -> Result<(), NoAnswer>
    requires ascending { IsTrue (ascends var_cmp vars.now) }
    requires listed { HasVariablesOf rows.now vars.now }
    ensures refutation { OnOk result (IsRefutation rows.now vars.now multipliers.now) }
    ensures found { IsFoundRefutation rows.now vars.now multipliers.now → IfErr result (IsWidthOf (infeasible_conditions rows.now vars.now multipliers.now)) }
    ensures refused { IfErr result (IsRefused (infeasible_conditions rows.now vars.now multipliers.now)) }
{
    multiplier_laws(multipliers);
    let verdict = check_infeasible(alloc, rows, vars, multipliers)?;
    match verdict {
        Verdict::Yes(_) => Ok(()),
        Verdict::Width(place) => Err(NoAnswer::Width(place)),
        Verdict::No(_) => Err(NoAnswer::Nothing),
    }
}

/// The checker accepts that the cost falls along a direction.
pub fn accepted_direction(
    rows: &[Row],
    vars: &[Var],
    cost: Cost,
    direction: &Plan,
) -> Result<(), NoAnswer>
    ensures descent { OnOk result (IsDescentFor (weight_of cost) rows.now vars.now direction.now) }
    ensures found { IsFoundDescentFor (weight_of cost) rows.now vars.now direction.now → IfErr result (IsWidthOf (direction_conditions (weight_of cost) rows.now vars.now direction.now)) }
    ensures refused { IfErr result (IsRefused (direction_conditions (weight_of cost) rows.now vars.now direction.now)) }
    ensures enough { IfErr result (λ stop. stop ≢ Memory) }
{
    plan_laws(direction);
    let one = one_number(cost);
    match check_direction(rows, vars, &numbers_of(&one), direction) {
        Verdict::Yes(_) => Ok(()),
        Verdict::Width(place) => Err(NoAnswer::Width(place)),
        Verdict::No(_) => Err(NoAnswer::Nothing),
    }
}
