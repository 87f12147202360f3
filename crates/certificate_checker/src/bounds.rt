//! Checks of what proves a bound, and of what proves that no plan exists.

ghost use Rattle.std.specs.Prelude.{ℕ, ℤ, pos, ◌≡◌, IsTrue, IfOk};
ghost use Rattle.exact_num.specs.Value.{value_of};
ghost use Rattle.row_core.specs.declared.RowName.{RowName};
ghost use Rattle.row_core.specs.Numbers.{ascends};
ghost use Rattle.row_core.specs.Order.{var_cmp, row_name_cmp};
ghost use Rattle.row_core.specs.Plans.{value_in};
ghost use Rattle.row_core.specs.Values.{IsOver};
ghost use Rattle.certificate_checker.specs.Certificates.{AreMultipliersOver, bound_of, Proves, Refutes, BoundsAll, AdmitsNone};
ghost use Rattle.certificate_checker.specs.CostNumbers.{number_of, IsCost};
ghost use Rattle.certificate_checker.specs.MultiplierChecks.{bound_conditions, infeasible_conditions, bound_value};
ghost use Rattle.certificate_checker.specs.Sums.{HasVariablesOf};
ghost use Rattle.certificate_checker.specs.Verdicts.{IsVerdict, IfYes, OnYes, OnNo};

use crate::costs::CostNumbers;
use crate::multipliers::{Aim, multiplier_verdict};
use crate::verdicts::Verdict;
use row_core::{Multipliers, Row, Var};
use std::alloc::{AllocError, Global};

/// Whether multipliers prove a bound on a cost: their signs in the order of rows, then the columns in the order of
/// variables. `Yes` carries the bound, the sum of multiplier times right side. `WrongMultiplier` carries the first row whose
/// multiplier has the wrong sign, `Column` the first variable whose column of multiplier times entry sums up to more than
/// the cost's number, or for a variable that may be negative to another, with the difference. Refuses only out of memory.
pub fn check_bound(
    alloc: Global,
    rows: &[Row],
    vars: &[Var],
    cost: &CostNumbers<'_>,
    multipliers: &Multipliers,
) -> Result<Verdict, AllocError>
    requires ascending { IsTrue (ascends var_cmp vars.now) }
    requires cost { IsCost cost.now }
    ensures answer { IfOk result (IsVerdict (bound_conditions (number_of cost.now) rows.now vars.now multipliers.now) (bound_value rows.now (value_in row_name_cmp multipliers.now))) }
    ensures yes { (s : ℕ) (y : RowName → ℤ) → AreMultipliersOver s y multipliers.now
        → IfOk result (λ v. IfYes v (λ bound. Proves (number_of cost.now) rows.now vars.now s y × IsOver (pos s) (value_of bound) (bound_of y rows.now))) }
    ensures no { (s : ℕ) (y : RowName → ℤ) → AreMultipliersOver s y multipliers.now → IfOk result (λ v. OnNo v (¬ (Proves (number_of cost.now) rows.now vars.now s y))) }
    ensures bounds { HasVariablesOf rows.now vars.now → IfOk result (λ v. IfYes v (λ bound. BoundsAll (number_of cost.now) rows.now vars.now (value_of bound))) }
{
    // The multipliers are fractions, so they are whole numbers over one denominator.
    let _values = multipliers.entries();
    multiplier_verdict(alloc, rows, vars, cost, multipliers, Aim::Bound)
}

/// Whether multipliers prove that no plan exists: as for a bound, with no cost, and last that the sum of multiplier times
/// right side is above 0. `Yes` carries that sum. Refuses only out of memory.
pub fn check_infeasible(
    alloc: Global,
    rows: &[Row],
    vars: &[Var],
    multipliers: &Multipliers,
) -> Result<Verdict, AllocError>
    requires { IsTrue (ascends var_cmp vars.now) }
    ensures answer { IfOk result (IsVerdict (infeasible_conditions rows.now vars.now multipliers.now) (bound_value rows.now (value_in row_name_cmp multipliers.now))) }
    ensures yes { (s : ℕ) (y : RowName → ℤ) → AreMultipliersOver s y multipliers.now
        → IfOk result (λ v. IfYes v (λ sum. Refutes rows.now vars.now s y × IsOver (pos s) (value_of sum) (bound_of y rows.now))) }
    ensures no { (s : ℕ) (y : RowName → ℤ) → AreMultipliersOver s y multipliers.now → IfOk result (λ v. OnNo v (¬ (Refutes rows.now vars.now s y))) }
    ensures none { HasVariablesOf rows.now vars.now → IfOk result (λ v. OnYes v (AdmitsNone rows.now vars.now)) }
{
    // The multipliers are fractions, so they are whole numbers over one denominator.
    let _values = multipliers.entries();
    multiplier_verdict(
        alloc,
        rows,
        vars,
        &CostNumbers::Zero,
        multipliers,
        Aim::Infeasible,
    )
}
