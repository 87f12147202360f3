//! What is told of a variable in two plans.

ghost use Rattle.std.specs.Prelude.{◌≡◌, ◌++◌, Bool, Option, OnOk, filter, map};
ghost use Rattle.exact_num.specs.Rational.{Rational};
ghost use Rattle.exact_num.specs.Value.{value_of};
ghost use Rattle.exact_num.specs.declared.fraction.Frac.{Frac};
ghost use Rattle.row_core.specs.declared.Var.{Var};
ghost use Rattle.row_core.specs.Plans.{valued};
ghost use Rattle.plan_compare.specs.declared.change.Change.{Change};
ghost use Rattle.plan_compare.specs.Changes.{listed, told_where};

use exact_num::Frac;
use row_core::Var;
use std::alloc::AllocError;

/// A variable of one of two plans, and its numbers in both, in millionths. A number is `None` where it leaves 128 bits.
#[derive(Clone, Copy)]
pub(crate) struct Change {
    /// The variable is that of the second plan, and the value of the same names in the first is 0.
    pub(crate) in_second: bool,
    pub(crate) var: Var,
    /// The number in the first plan.
    pub(crate) one: Option<i128>,
    /// The number in the second plan.
    pub(crate) two: Option<i128>,
    /// The exact values aren't the same. Of sums: those of a year aren't, and the rounded sums aren't.
    pub(crate) differs: bool,
}

/// Appends what is told of each of the entries of a plan, in order, where something is.
pub(crate) fn push_told<T: Fn(Var, Frac) -> Option<Change>>(
    all: &mut Vec<Change>,
    entries: &[(Var, Frac)],
    told: T,
) -> Result<(), AllocError>
    requires { T.IsAlwaysCallable told }
    ensures { (passes : Var × Rational → Bool) (of : Var × Rational → Change)
        → ((var : Var) (value : Frac) (change : Option Change) → T.post told var value change → change ≡ told_where passes of (var, value_of value))
        → OnOk result (all.new.items ≡ all.old.items ++ map of (filter passes (map valued entries.now))) }
{
    for (var, value) in entries {
        push_some(all, told(*var, *value))?;
    }
    Ok(())
}

// Appends what there is.
fn push_some(all: &mut Vec<Change>, change: Option<Change>) -> Result<(), AllocError>
    ensures { OnOk result (all.new.items ≡ all.old.items ++ listed change) }
{
    if let Some(change) = change {
        all.push(change)?;
    }
    Ok(())
}
