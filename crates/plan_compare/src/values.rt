//! Values of a plan, here and there.

ghost use Rattle.std.specs.Prelude.{◌≡◌};
ghost use Rattle.exact_num.specs.Value.{value_of};
ghost use Rattle.row_core.specs.Kinds.{IsKind};
ghost use Rattle.plan_tables.specs.ValueTables.{is_shown};
ghost use Rattle.plan_compare.specs.Changes.{is_same, value_there};
ghost use Rattle.plan_compare.specs.Scenarios.{side_of};
ghost use Rattle.row_core.specs.Numbers.{is_zero};

use crate::counterparts::counterpart;
use crate::scenario::Scenario;
use exact_num::Frac;
use row_core::{Var, fraction};

/// The value in the plan there of the variable of the same names, 0 where there is none.
pub(crate) fn value_there(kind: u8, here: Scenario<'_>, there: Scenario<'_>, var: Var) -> Frac
    requires { IsKind kind }
    ensures { value_of result ≡ value_there kind (side_of here.entry) (side_of there.entry) var }
{
    match counterpart(true, kind, here.sets, there.sets, var) {
        Some(found) => there.plan.value(found),
        None => fraction(0),
    }
}

/// Whether a value is one of the kind, and isn't 0.
pub(crate) fn is_shown(kind: u8, var: Var, value: Frac) -> bool
    ensures { result ≡ is_shown kind (var, value_of value) }
{
    var.kind == kind && !is_zero(value)
}

/// Whether a value is 0.
pub(crate) fn is_zero(value: Frac) -> bool
    ensures { result ≡ is_zero (value_of value).top }
{
    value.num == 0
}

/// Whether two values are one number.
pub(crate) fn is_same(a: Frac, b: Frac) -> bool
    ensures { result ≡ is_same (value_of a) (value_of b) }
{
    a.num == b.num && a.den == b.den
}
