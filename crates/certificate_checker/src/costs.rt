//! What values cost.

ghost use Rattle.std.specs.Prelude.{◌≡◌, ◌∷◌, [], is_ok, IfOk};
ghost use Rattle.exact_num.specs.Range.{InRange, all_fit};
ghost use Rattle.exact_num.specs.Value.{value_of};
ghost use Rattle.row_core.specs.Evaluated.{sum_from, sum_from_formed};
ghost use Rattle.row_core.specs.Order.{var_cmp};
ghost use Rattle.row_core.specs.Plans.{value_in};
ghost use Rattle.certificate_checker.specs.Costs.{cost_entries, cost_value, total_formed};
ghost use Rattle.certificate_checker.specs.CostNumbers.{number_of, IsCost};

use exact_num::{Frac, TooWide};
use row_core::kind_numbers::TOTAL_DISCOUNTED_COST;
use row_core::{Plan, Var, add_term, fraction, look_up};

/// The number that a cost has for each variable.
#[derive(Clone, Copy)]
pub enum CostNumbers<'a> {
    /// 1 for TotalDiscountedCost, and 0 for all others.
    Model,
    /// Those of a list that ascends strictly by variable, and 0 for all others.
    Given(&'a [(Var, i128)]),
    /// 0 for all.
    Zero,
}

/// The number of a variable.
pub(crate) fn number_of(cost: &CostNumbers<'_>, variable: Var) -> i128
    requires { IsCost cost.now }
    ensures value { result ≡ number_of cost.now variable }
    ensures range { InRange result }
{
    match cost {
        CostNumbers::Model => {
            if variable.kind == TOTAL_DISCOUNTED_COST {
                1
            } else {
                0
            }
        }
        CostNumbers::Given(entries) => match look_up(*entries, variable) {
            Some(number) => number,
            None => 0,
        },
        CostNumbers::Zero => 0,
    }
}

/// The sum of number times value, in the order of variables.
pub(crate) fn cost_of(cost: &CostNumbers<'_>, vars: &[Var], plan: &Plan) -> Result<Frac, TooWide>
    requires { IsCost cost.now }
    ensures refused { is_ok result ≡ all_fit (total_formed (value_in var_cmp plan.now) (cost_entries (number_of cost.now) vars.now)) }
    ensures value { IfOk result (λ sum. value_of sum ≡ cost_value (number_of cost.now) vars.now (value_in var_cmp plan.now)) }
{
    let mut sum = fraction(0);
    for variable in vars {
        sum = with_variable(sum, cost, *variable, plan)?;
    }
    Ok(sum)
}

/// A sum with what one variable costs.
fn with_variable(
    sum: Frac,
    cost: &CostNumbers<'_>,
    variable: Var,
    plan: &Plan,
) -> Result<Frac, TooWide>
    requires { IsCost cost.now }
    ensures refused { is_ok result ≡ all_fit (sum_from_formed (value_in var_cmp plan.now) (value_of sum) (cost_entries (number_of cost.now) (variable ∷ []))) }
    ensures value { IfOk result (λ more. value_of more ≡ sum_from (value_in var_cmp plan.now) (value_of sum) (cost_entries (number_of cost.now) (variable ∷ []))) }
{
    let number = number_of(cost, variable);
    if number == 0 {
        Ok(sum)
    } else {
        add_term(sum, number, plan.value(variable))
    }
}
