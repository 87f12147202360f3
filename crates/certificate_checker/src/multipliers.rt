//! Checks of multipliers: their signs, their columns, and their sum of right sides.

ghost use Rattle.std.specs.Prelude.{◌≡◌, ◌∷◌, [], List, length, map, is_ok, IsTrue, IfOk, OnOk, IfErr};
ghost use Rattle.exact_num.specs.Range.{all_fit};
ghost use Rattle.exact_num.specs.Rational.{Rational};
ghost use Rattle.exact_num.specs.Value.{value_of};
ghost use Rattle.row_core.specs.declared.Row.{Row};
ghost use Rattle.row_core.specs.declared.RowName.{RowName};
ghost use Rattle.row_core.specs.Numbers.{ascends};
ghost use Rattle.row_core.specs.Order.{var_cmp, row_name_cmp};
ghost use Rattle.row_core.specs.Plans.{value_in};
ghost use Rattle.certificate_checker.specs.ColumnSums.{seen, column_partial, AreColumnSums};
ghost use Rattle.certificate_checker.specs.Conditions.{AllPass};
ghost use Rattle.certificate_checker.specs.Costs.{total_formed};
ghost use Rattle.certificate_checker.specs.CostNumbers.{number_of, IsCost};
ghost use Rattle.certificate_checker.specs.Halts.{IsHalt};
ghost use Rattle.certificate_checker.specs.MultiplierChecks.{is_signed, multiplier_condition, is_within, column_condition, right_sides, bound_value, bound_passes, bound_condition, multiplier_conditions};
ghost use Rattle.certificate_checker.specs.Verdicts.{IsVerdict};

use crate::columns::column_sums;
use crate::costs::{CostNumbers, number_of};
use crate::numbers::{absolute, may_be_negative};
use crate::verdicts::{Halt, Rejection, Verdict, verdict_of};
use exact_num::{Frac, TooWide, cmp_frac, sub};
use row_core::{Multipliers, Place, Row, Sense, Var, add_term, fraction};
use std::alloc::{AllocError, Global};
use std::cmp::Ordering;

/// What multipliers are checked for.
#[derive(Clone, Copy, PartialEq, Eq)]
pub(crate) enum Aim {
    /// That they prove a bound.
    Bound,
    /// That they prove that no plan exists.
    Infeasible,
}

/// The answer of multipliers: the signs in the order of rows, the columns in the order of variables, and the sum of
/// multiplier times right side.
pub(crate) fn multiplier_verdict(
    alloc: Global,
    rows: &[Row],
    vars: &[Var],
    cost: &CostNumbers<'_>,
    multipliers: &Multipliers,
    aim: Aim,
) -> Result<Verdict, AllocError>
    requires cost { IsCost cost.now }
    requires ascending { IsTrue (ascends var_cmp vars.now) }
    ensures { IfOk result (IsVerdict (multiplier_conditions aim (number_of cost.now) rows.now vars.now (value_in row_name_cmp multipliers.now)) (bound_value rows.now (value_in row_name_cmp multipliers.now))) }
{
    let sums = column_sums(alloc, rows, vars, multipliers)?;
    let found = check_multipliers(rows, vars, cost, multipliers, aim, &sums);
    Ok(verdict_of(found))
}

/// The same, with the sums of the columns.
fn check_multipliers(
    rows: &[Row],
    vars: &[Var],
    cost: &CostNumbers<'_>,
    multipliers: &Multipliers,
    aim: Aim,
    sums: &[Option<Frac>],
) -> Result<Frac, Halt>
    requires cost { IsCost cost.now }
    requires sums { AreColumnSums rows.now (value_in row_name_cmp multipliers.now) vars.now sums.now }
    ensures passed { OnOk result (AllPass (multiplier_conditions aim (number_of cost.now) rows.now vars.now (value_in row_name_cmp multipliers.now))) }
    ensures value { IfOk result (λ sum. value_of sum ≡ bound_value rows.now (value_in row_name_cmp multipliers.now)) }
    ensures halted { IfErr result (IsHalt (multiplier_conditions aim (number_of cost.now) rows.now vars.now (value_in row_name_cmp multipliers.now))) }
{
    check_signs(rows, multipliers)?;
    check_columns(vars, cost, sums)?;
    check_sum(rows, multipliers, aim)
}

/// The signs in the order of rows.
fn check_signs(rows: &[Row], multipliers: &Multipliers) -> Result<(), Halt>
    ensures passed { OnOk result (AllPass (map (multiplier_condition (value_in row_name_cmp multipliers.now)) rows.now)) }
    ensures halted { IfErr result (IsHalt (map (multiplier_condition (value_in row_name_cmp multipliers.now)) rows.now)) }
{
    for row in rows {
        check_sign(row, multipliers)?;
    }
    Ok(())
}

/// The sign of one row's multiplier.
fn check_sign(row: &Row, multipliers: &Multipliers) -> Result<(), Halt>
    ensures passed { OnOk result (AllPass (multiplier_condition (value_in row_name_cmp multipliers.now) row.now ∷ [])) }
    ensures halted { IfErr result (IsHalt (multiplier_condition (value_in row_name_cmp multipliers.now) row.now ∷ [])) }
{
    let multiplier = multipliers.value(row.name);
    if is_signed(row.sense, multiplier.num) {
        Ok(())
    } else {
        Err(Halt::No(Rejection::WrongMultiplier(row.name)))
    }
}

/// Whether a number is at least 0 where the row says at least, and at most 0 where it says at most.
fn is_signed(sense: Sense, number: i128) -> bool
    ensures { result ≡ is_signed sense number }
{
    match sense {
        Sense::Least => number >= 0,
        Sense::Equal => true,
        Sense::Most => number <= 0,
    }
}

/// The columns in the order of variables, of which these are the sums.
fn check_columns(vars: &[Var], cost: &CostNumbers<'_>, sums: &[Option<Frac>]) -> Result<(), Halt>
    requires cost { IsCost cost.now }
    requires many { length sums.now ≡ length vars.now }
    ensures passed { (rows : List Row) (value : RowName → Rational) → AreColumnSums rows value vars.now sums.now
        → OnOk result (AllPass (map (column_condition (number_of cost.now) rows value) vars.now)) }
    ensures halted { (rows : List Row) (value : RowName → Rational) → AreColumnSums rows value vars.now sums.now
        → IfErr result (IsHalt (map (column_condition (number_of cost.now) rows value) vars.now)) }
{
    for (i, variable) in vars.iter().enumerate() {
        check_column(*variable, cost, sums[i])?;
    }
    Ok(())
}

/// The column of one variable, with its sum if all numbers that are formed for it fit.
fn check_column(variable: Var, cost: &CostNumbers<'_>, sum: Option<Frac>) -> Result<(), Halt>
    requires { IsCost cost.now }
    ensures passed { (rows : List Row) (value : RowName → Rational) → seen sum ≡ column_partial rows value variable
        → OnOk result (AllPass (column_condition (number_of cost.now) rows value variable ∷ [])) }
    ensures halted { (rows : List Row) (value : RowName → Rational) → seen sum ≡ column_partial rows value variable
        → IfErr result (IsHalt (column_condition (number_of cost.now) rows value variable ∷ [])) }
{
    let place = Place::Column(variable);
    let Some(sum) = sum else {
        return Err(Halt::Width(place));
    };
    let number = fraction(number_of(cost, variable));
    if is_within(may_be_negative(variable.kind), cmp_frac(sum, number)) {
        return Ok(());
    }
    match sub(sum, number) {
        Ok(rest) => Err(Halt::No(Rejection::Column(variable, absolute(rest)))),
        Err(_) => Err(Halt::Width(place)),
    }
}

/// Whether a sum that stands so to the cost's number may: equal to it for a variable that may be negative, and at most it
/// for another.
fn is_within(free: bool, order: Ordering) -> bool
    ensures { result ≡ is_within free order }
{
    if free { order.is_eq() } else { order.is_le() }
}

/// The sum of multiplier times right side, which is positive where no plan is to exist.
fn check_sum(rows: &[Row], multipliers: &Multipliers, aim: Aim) -> Result<Frac, Halt>
    ensures passed { OnOk result (AllPass (bound_condition aim rows.now (value_in row_name_cmp multipliers.now) ∷ [])) }
    ensures value { IfOk result (λ sum. value_of sum ≡ bound_value rows.now (value_in row_name_cmp multipliers.now)) }
    ensures halted { IfErr result (IsHalt (bound_condition aim rows.now (value_in row_name_cmp multipliers.now) ∷ [])) }
{
    let Ok(sum) = right_sum(rows, multipliers) else {
        return Err(Halt::Width(Place::SumBound));
    };
    if bound_passes(aim, sum.num) {
        Ok(sum)
    } else {
        Err(Halt::No(Rejection::NotPositive))
    }
}

/// Whether a sum is above 0, which a bound needn't be.
fn bound_passes(aim: Aim, sum: i128) -> bool
    ensures { result ≡ bound_passes aim sum }
{
    match aim {
        Aim::Bound => true,
        Aim::Infeasible => sum > 0,
    }
}

/// The sum of multiplier times right side, in the order of rows.
fn right_sum(rows: &[Row], multipliers: &Multipliers) -> Result<Frac, TooWide>
    ensures refused { is_ok result ≡ all_fit (total_formed (value_in row_name_cmp multipliers.now) (right_sides rows.now)) }
    ensures value { IfOk result (λ sum. value_of sum ≡ bound_value rows.now (value_in row_name_cmp multipliers.now)) }
{
    let mut sum = fraction(0);
    for row in rows {
        sum = add_term(sum, row.rhs, multipliers.value(row.name))?;
    }
    Ok(sum)
}
