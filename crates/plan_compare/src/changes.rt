//! The values of a kind in two plans.

ghost use Rattle.std.specs.Prelude.{◌≡◌, ◌++◌, ◌∷◌, [], IfOk, OnOk, filter, map};
ghost use Rattle.exact_num.specs.Value.{value_of};
ghost use Rattle.row_core.specs.Kinds.{IsKind};
ghost use Rattle.row_core.specs.Plans.{valued};
ghost use Rattle.plan_tables.specs.ValueTables.{is_shown};
ghost use Rattle.plan_compare.specs.Changes.{change_of_first, change_of_second, changes, is_new, told_where};
ghost use Rattle.plan_compare.specs.Scenarios.{side_of};

use crate::change::{Change, push_told};
use crate::scenario::Scenario;
use crate::values::{is_same, is_shown, is_zero, value_there};
use exact_num::Frac;
use row_core::Var;
use std::alloc::{AllocError, Global};
use value_millionths::millionths;

/// The values of a kind that aren't 0 in both plans: those of the first in its order, and then those that the second alone has in its
/// order.
pub(crate) fn changes_of(
    alloc: Global,
    kind: u8,
    first: Scenario<'_>,
    second: Scenario<'_>,
) -> Result<Vec<Change>, AllocError>
    requires { IsKind kind }
    ensures { IfOk result (λ all. all.items ≡ changes kind (side_of first.entry) (side_of second.entry)) }
{
    let mut all = Vec::new(alloc);
    push_told(
        &mut all,
        first.plan.entries(),
        |var, value|
            requires { IsKind kind }
            ensures { result ≡ told_where (is_shown kind) (change_of_first kind (side_of first.entry) (side_of second.entry)) (var, value_of value) }
        {
            if is_shown(kind, var, value) {
                Some(change_of_first(kind, first, second, var, value))
            } else {
                None
            }
        },
    )?;
    push_told(
        &mut all,
        second.plan.entries(),
        |var, value|
            requires { IsKind kind }
            ensures { result ≡ told_where (is_new kind (side_of first.entry) (side_of second.entry)) change_of_second (var, value_of value) }
        {
            if is_new(kind, first, second, var, value) {
                Some(change_of_second(var, value))
            } else {
                None
            }
        },
    )?;
    Ok(all)
}

// A variable of the first plan.
fn change_of_first(
    kind: u8,
    first: Scenario<'_>,
    second: Scenario<'_>,
    var: Var,
    value: Frac,
) -> Change
    requires { IsKind kind }
    ensures { result ≡ change_of_first kind (side_of first.entry) (side_of second.entry) (var, value_of value) }
{
    let two = value_there(kind, first, second, var);
    Change {
        in_second: false,
        var,
        one: millionths(value),
        two: millionths(two),
        differs: !is_same(value, two),
    }
}

// Whether a value is one of the kind and not 0, and the other plan has none but 0 there.
fn is_new(kind: u8, first: Scenario<'_>, second: Scenario<'_>, var: Var, value: Frac) -> bool
    requires { IsKind kind }
    ensures { result ≡ is_new kind (side_of first.entry) (side_of second.entry) (var, value_of value) }
{
    is_shown(kind, var, value) && is_zero(value_there(kind, second, first, var))
}

// A variable that the second plan alone has.
fn change_of_second(var: Var, value: Frac) -> Change
    ensures { result ≡ change_of_second (var, value_of value) }
{
    Change {
        in_second: true,
        var,
        one: Some(0),
        two: millionths(value),
        differs: true,
    }
}
