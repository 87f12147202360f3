//! What is to be as little as it can be.

ghost use Rattle.std.specs.Prelude.{◌≡◌, IfSome};
ghost use Rattle.exact_num.specs.Range.{InRange};
ghost use Rattle.certificate_checker.specs.CostNumbers.{IsCost, number_of};
ghost use Rattle.certified_answers.specs.Costs.{one_number, sign_of, weight_at};

use certificate_checker::CostNumbers;
use row_core::Var;
use std::slice::from_ref;

/// Which value of a variable is looked for.
#[derive(Clone, Copy, PartialEq, Eq)]
pub enum Goal {
    /// The least.
    Least,
    /// The greatest.
    Greatest,
}

/// What is to be as little as it can be.
#[derive(Clone, Copy, PartialEq, Eq)]
pub enum Cost {
    /// The model's cost: the sum of all TotalDiscountedCost.
    Model,
    /// The value of one variable, or for the greatest value that value turned.
    One(Var, Goal),
}

/// The one variable that has a number in a cost, with it. None for the model's.
pub(crate) fn one_number(cost: Cost) -> Option<(Var, i128)>
    ensures value { result ≡ one_number cost }
    ensures fits { IfSome result (λ one. InRange one.1) }
{
    match cost {
        Cost::Model => None,
        Cost::One(var, goal) => Some((var, sign_of(goal))),
    }
}

/// The number of the variable in the cost that is one variable's value.
fn sign_of(goal: Goal) -> i128
    ensures value { result ≡ sign_of goal }
    ensures fits { InRange result }
{
    match goal {
        Goal::Least => 1,
        Goal::Greatest => -1,
    }
}

/// The numbers of such a cost, for the checker.
pub(crate) fn numbers_of(one: &Option<(Var, i128)>) -> CostNumbers<'_>
    requires { IfSome one.now (λ pair. InRange pair.1) }
    ensures cost { IsCost result }
    ensures numbers { number_of result ≡ weight_at one.now }
{
    match one {
        Some(pair) => CostNumbers::Given(from_ref(pair)),
        None => CostNumbers::Model,
    }
}
