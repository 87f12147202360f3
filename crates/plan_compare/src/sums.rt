//! Sums over the years in two plans.

ghost use Rattle.std.specs.Prelude.{◌≡◌, ◌++◌, ◌∷◌, [], false, IfOk, OnOk, filter, map};
ghost use Rattle.std.specs.List.{list_any, range_with_len};
ghost use Rattle.exact_num.specs.Value.{value_of};
ghost use Rattle.row_core.specs.Kinds.{IsKind};
ghost use Rattle.row_core.specs.Plans.{valued};
ghost use Rattle.plan_compare.specs.Counterparts.{counterpart};
ghost use Rattle.plan_compare.specs.Changes.{told_where};
ghost use Rattle.plan_compare.specs.Scenarios.{side_of};
ghost use Rattle.plan_compare.specs.Sums.{at_year, change_of, differs_at_most_one, differs_by_year, differs_in, is_first, is_new_sum, is_told_at_most_one, is_told_in, shown_in, sum_at_most_one, sum_of, sum_of_first, sum_of_second, sums};

use crate::amounts::{difference, size, sum_of_two};
use crate::change::{Change, push_told};
use crate::counterparts::counterpart;
use crate::scenario::Scenario;
use crate::values::{is_same, is_shown, is_zero, value_there};
use exact_num::Frac;
use model_sets::set_numbers::YEAR;
use row_core::{Index, Var};
use std::alloc::{AllocError, Global};
use value_millionths::millionths;

/// The sums of a kind in both plans: those of the first in its order, and then those that the second alone has in its order.
pub(crate) fn sums_of(
    alloc: Global,
    kind: u8,
    first: Scenario<'_>,
    second: Scenario<'_>,
) -> Result<Vec<Change>, AllocError>
    requires { IsKind kind }
    ensures { IfOk result (λ all. all.items ≡ sums kind (side_of first.entry) (side_of second.entry)) }
{
    let mut all = Vec::new(alloc);
    push_told(
        &mut all,
        first.plan.entries(),
        |var, value|
            requires { IsKind kind }
            ensures { result ≡ told_where (is_first kind (side_of first.entry)) (sum_of_first kind (side_of first.entry) (side_of second.entry)) (var, value_of value) }
        {
            if is_first(kind, first, var, value) {
                Some(sum_of_first(kind, first, second, var))
            } else {
                None
            }
        },
    )?;
    push_told(
        &mut all,
        second.plan.entries(),
        |var, value|
            requires { IsKind kind }
            ensures { result ≡ told_where (is_new_sum kind (side_of first.entry) (side_of second.entry)) (sum_of_second (side_of second.entry)) (var, value_of value) }
        {
            if is_new(kind, first, second, var, value) {
                Some(change_of(true, var, Some(0), sum_of(second, var), true))
            } else {
                None
            }
        },
    )?;
    Ok(all)
}

// A sum of the first plan.
fn sum_of_first(kind: u8, first: Scenario<'_>, second: Scenario<'_>, var: Var) -> Change
    requires { IsKind kind }
    ensures { result ≡ change_of false var (sum_of (side_of first.entry) var)
        (sum_at_most_one (side_of second.entry) (counterpart false kind first.entry.sets.now second.entry.sets.now var))
        (differs_by_year kind (side_of first.entry) (side_of second.entry) var) }
{
    let there = counterpart(false, kind, first.sets, second.sets, var);
    change_of(
        false,
        var,
        sum_of(first, var),
        sum_at_most_one(second, there),
        differs_by_year(kind, first, second, var),
    )
}

// Whether a value is the first over the years that isn't 0, and the other plan has none.
fn is_new(kind: u8, first: Scenario<'_>, second: Scenario<'_>, var: Var, value: Frac) -> bool
    requires { IsKind kind }
    ensures { result ≡ is_new_sum kind (side_of first.entry) (side_of second.entry) (var, value_of value) }
{
    is_first(kind, second, var, value)
        && !is_told_at_most_one(
            first,
            counterpart(false, kind, second.sets, first.sets, var),
        )
}

// Whether a value is one of the kind and not 0, and the first such over the years.
fn is_first(kind: u8, side: Scenario<'_>, var: Var, value: Frac) -> bool
    ensures { result ≡ is_first kind (side_of side.entry) (var, value_of value) }
{
    is_shown(kind, var, value) && !is_told_before(side, var, var.index.year)
}

// Whether one of so many first years has a value that isn't 0.
fn is_told_before(side: Scenario<'_>, var: Var, years: u16) -> bool
    ensures { result ≡ list_any (is_told_in (side_of side.entry) var) (range_with_len 0 years) }
{
    for year in 0..years {
        if is_told_in(side, var, year) {
            return true;
        }
    }
    false
}

// Whether the value in a year isn't 0.
fn is_told_in(side: Scenario<'_>, var: Var, year: u16) -> bool
    ensures { result ≡ is_told_in (side_of side.entry) var year }
{
    !is_zero(side.plan.value(at_year(var, year)))
}

// Whether a year has a value that isn't 0, at a variable that may not be there.
fn is_told_at_most_one(side: Scenario<'_>, var: Option<Var>) -> bool
    ensures { result ≡ is_told_at_most_one (side_of side.entry) var }
{
    match var {
        Some(var) => is_told_before(side, var, side.sets.count(YEAR)),
        None => false,
    }
}

// The sum at a variable that may not be there: then it is 0.
fn sum_at_most_one(side: Scenario<'_>, var: Option<Var>) -> Option<i128>
    ensures { result ≡ sum_at_most_one (side_of side.entry) var }
{
    match var {
        Some(var) => sum_of(side, var),
        None => Some(0),
    }
}

// The sum over all years.
fn sum_of(side: Scenario<'_>, var: Var) -> Option<i128>
    ensures { result ≡ sum_of (side_of side.entry) var }
{
    let mut sum = Some(0);
    for year in 0..side.sets.count(YEAR) {
        sum = sum_of_two(sum, shown_in(side, var, year));
    }
    sum
}

// The value in a year, in millionths.
fn shown_in(side: Scenario<'_>, var: Var, year: u16) -> Option<i128>
    ensures { result ≡ shown_in (side_of side.entry) var year }
{
    millionths(side.plan.value(at_year(var, year)))
}

// The variable in another year.
fn at_year(var: Var, year: u16) -> Var
    ensures { result ≡ at_year var year }
{
    Var {
        kind: var.kind,
        index: Index { year, ..var.index },
    }
}

// Whether the values of one of the years of either plan aren't one number in both.
fn differs_by_year(kind: u8, first: Scenario<'_>, second: Scenario<'_>, var: Var) -> bool
    requires { IsKind kind }
    ensures { result ≡ differs_by_year kind (side_of first.entry) (side_of second.entry) var }
{
    differs_at_most_one(kind, first, second, Some(var))
        || differs_at_most_one(
            kind,
            second,
            first,
            counterpart(false, kind, first.sets, second.sets, var),
        )
}

// Whether those of one of the years here aren't, at a variable that may not be there.
fn differs_at_most_one(kind: u8, here: Scenario<'_>, there: Scenario<'_>, var: Option<Var>) -> bool
    requires { IsKind kind }
    ensures { result ≡ differs_at_most_one kind (side_of here.entry) (side_of there.entry) var }
{
    match var {
        Some(var) => differs_before(kind, here, there, var, here.sets.count(YEAR)),
        None => false,
    }
}

// Whether those of one of so many first years here aren't.
fn differs_before(kind: u8, here: Scenario<'_>, there: Scenario<'_>, var: Var, years: u16) -> bool
    requires { IsKind kind }
    ensures { result ≡ list_any (differs_in kind (side_of here.entry) (side_of there.entry) var) (range_with_len 0 years) }
{
    for year in 0..years {
        if differs_in(kind, here, there, var, year) {
            return true;
        }
    }
    false
}

// Whether the values of a year, here and there, aren't one number.
fn differs_in(kind: u8, here: Scenario<'_>, there: Scenario<'_>, var: Var, year: u16) -> bool
    requires { IsKind kind }
    ensures { result ≡ differs_in kind (side_of here.entry) (side_of there.entry) var year }
{
    let at = at_year(var, year);
    !is_same(here.plan.value(at), value_there(kind, here, there, at))
}

// Two sums, which differ where a year does, and their difference isn't 0 or isn't there.
fn change_of(
    in_second: bool,
    var: Var,
    one: Option<i128>,
    two: Option<i128>,
    by_year: bool,
) -> Change
    ensures { result ≡ change_of in_second var one two by_year }
{
    Change {
        in_second,
        var,
        one,
        two,
        differs: by_year && size(difference(one, two)) != 0,
    }
}
