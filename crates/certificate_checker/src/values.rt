//! Checks of values for variables: of a plan, and of a direction.

ghost use Rattle.std.specs.Prelude.{◌≡◌, ◌∷◌, [], map, IfOk, OnOk, IfErr};
ghost use Rattle.exact_num.specs.Range.{InRange};
ghost use Rattle.exact_num.specs.Value.{value_of};
ghost use Rattle.row_core.specs.Order.{var_cmp};
ghost use Rattle.row_core.specs.Plans.{value_in};
ghost use Rattle.certificate_checker.specs.Conditions.{AllPass};
ghost use Rattle.certificate_checker.specs.CostNumbers.{number_of, IsCost};
ghost use Rattle.certificate_checker.specs.Costs.{cost_value};
ghost use Rattle.certificate_checker.specs.Halts.{IsHalt};
ghost use Rattle.certificate_checker.specs.PlanChecks.{right_of, cost_passes, row_condition, sign_condition, cost_condition, value_conditions};

use crate::costs::{CostNumbers, cost_of};
use crate::numbers::{absolute, may_be_negative, stands_to_zero};
use crate::verdicts::{Halt, Rejection};
use exact_num::Frac;
use row_core::{Place, Plan, Row, Var, eval_against};

/// What values are checked as.
#[derive(Clone, Copy, PartialEq, Eq)]
pub(crate) enum Subject {
    /// A plan: rows with their right sides.
    Plan,
    /// A direction: rows with right side 0, and a cost that falls.
    Direction,
}

/// The rows in order.
pub(crate) fn check_rows(rows: &[Row], plan: &Plan, subject: Subject) -> Result<(), Halt>
    ensures passed { OnOk result (AllPass (map (row_condition subject (value_in var_cmp plan.now)) rows.now)) }
    ensures halted { IfErr result (IsHalt (map (row_condition subject (value_in var_cmp plan.now)) rows.now)) }
{
    for row in rows {
        check_row(row, plan, subject)?;
    }
    Ok(())
}

/// One row.
fn check_row(row: &Row, plan: &Plan, subject: Subject) -> Result<(), Halt>
    ensures passed { OnOk result (AllPass (row_condition subject (value_in var_cmp plan.now) row.now ∷ [])) }
    ensures halted { IfErr result (IsHalt (row_condition subject (value_in var_cmp plan.now) row.now ∷ [])) }
{
    let place = Place::Check(row.name);
    let Ok(rest) = eval_against(row, right_of(row, subject), plan, place) else {
        return Err(Halt::Width(place));
    };
    if stands_to_zero(row.sense, rest.num) {
        Ok(())
    } else {
        Err(Halt::No(Rejection::Violates(row.name, absolute(rest))))
    }
}

/// The right side of a row for a plan or a direction.
fn right_of(row: &Row, subject: Subject) -> i128
    ensures value { result ≡ right_of subject row.now }
    ensures range { InRange result }
{
    match subject {
        Subject::Plan => row.rhs,
        Subject::Direction => 0,
    }
}

/// The signs in the order of variables.
pub(crate) fn check_signs(vars: &[Var], plan: &Plan) -> Result<(), Halt>
    ensures passed { OnOk result (AllPass (map (sign_condition (value_in var_cmp plan.now)) vars.now)) }
    ensures halted { IfErr result (IsHalt (map (sign_condition (value_in var_cmp plan.now)) vars.now)) }
{
    for variable in vars {
        if !may_be_negative(variable.kind) && plan.value(*variable).num < 0 {
            return Err(Halt::No(Rejection::WrongSign(*variable)));
        }
    }
    Ok(())
}

/// The cost, which falls for a direction.
fn check_cost(
    cost: &CostNumbers<'_>,
    vars: &[Var],
    plan: &Plan,
    subject: Subject,
) -> Result<Frac, Halt>
    requires { IsCost cost.now }
    ensures passed { OnOk result (AllPass (cost_condition subject (number_of cost.now) vars.now (value_in var_cmp plan.now) ∷ [])) }
    ensures value { IfOk result (λ found. value_of found ≡ cost_value (number_of cost.now) vars.now (value_in var_cmp plan.now)) }
    ensures halted { IfErr result (IsHalt (cost_condition subject (number_of cost.now) vars.now (value_in var_cmp plan.now) ∷ [])) }
{
    let Ok(found) = cost_of(cost, vars, plan) else {
        return Err(Halt::Width(Place::SumCost));
    };
    if cost_passes(subject, found.num) {
        Ok(found)
    } else {
        Err(Halt::No(Rejection::NotNegative))
    }
}

/// Whether a cost is below 0, which that of a plan needn't be.
fn cost_passes(subject: Subject, cost: i128) -> bool
    ensures { result ≡ cost_passes subject cost }
{
    match subject {
        Subject::Plan => true,
        Subject::Direction => cost < 0,
    }
}

/// The rows, the signs and the cost; which is what the values cost.
pub(crate) fn check_values(
    rows: &[Row],
    vars: &[Var],
    cost: &CostNumbers<'_>,
    plan: &Plan,
    subject: Subject,
) -> Result<Frac, Halt>
    requires { IsCost cost.now }
    ensures passed { OnOk result (AllPass (value_conditions subject (number_of cost.now) rows.now vars.now (value_in var_cmp plan.now))) }
    ensures value { IfOk result (λ found. value_of found ≡ cost_value (number_of cost.now) vars.now (value_in var_cmp plan.now)) }
    ensures halted { IfErr result (IsHalt (value_conditions subject (number_of cost.now) rows.now vars.now (value_in var_cmp plan.now))) }
{
    check_rows(rows, plan, subject)?;
    check_signs(vars, plan)?;
    check_cost(cost, vars, plan, subject)
}
